ghost use Rattle.std.specs.Prelude.{◌≡◌, ◌<◌};
ghost use Rattle.plans.specs.Calls.{Positioned};
ghost use Rattle.plans.specs.Groups.{has, member};

use crate::refusal::Refusal;

// Whether a mask has the bit at a place, from 0.
pub(crate) fn has_bit(mask: u16, bit: usize) -> bool
    requires { bit < 16 }
    ensures { result ≡ has mask bit }
{
    (mask >> bit) % 2 == 1
}

// Whether a mask names a harbour, counted from 1.
pub fn contains(mask: u16, harbour: usize) -> bool
    ensures { result ≡ member mask harbour }
{
    if harbour < 1 || harbour > 16 {
        return false;
    }
    has_bit(mask, harbour - 1)
}

// The position of a member in its group, from 1 by rising harbour.
pub fn position(mask: u16, harbour: usize) -> Result<usize, Refusal>
    ensures { Positioned mask harbour result }
{
    if !contains(mask, harbour) {
        return Err(Refusal::NotAMember);
    }
    let below = mask % (1u16 << (harbour - 1));
    Ok(below.count_ones() as usize + 1)
}
