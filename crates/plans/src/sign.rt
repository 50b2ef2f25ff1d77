ghost use Rattle.std.specs.Prelude.{◌≡◌};
ghost use Rattle.plans.specs.Groups.{sign as sign_of};

// The sign of a slip at a position: 1 at position 1 and -1 elsewhere.
// Kept: a number by rule, since a sum over a group multiplies by it.
pub fn sign(position: usize) -> i8
    ensures { result ≡ sign_of position }
{
    if position == 1 { 1 } else { -1 }
}
