ghost use Rattle.std.specs.Prelude.{◌≡◌, ◌+◌, ◌-◌, ◌*◌, ◌<◌, ◌≤◌};
ghost use Rattle.plans.specs.Binomial.{choose};
ghost use Rattle.plans.specs.Calls.{Found, Numbers};
ghost use Rattle.plans.specs.Groups.{members, on_card, weighed};
ghost use Rattle.plans.specs.Refusals.{Passes, mask_refusal};
ghost use Rattle.plans.specs.Shape.{shape_of};

use crate::mask::{has_bit, position};
use crate::refusal::Refusal;
use crate::sign::sign;
use crate::table::Table;

impl Table {
    // C(n, r), from the table.
    fn chosen(&self, n: usize, r: usize) -> usize
        requires row { n < self.now.plan.harbours }
        requires column { r ≤ 10 }
        ensures value { result ≡ choose n r }
        ensures few { result ≤ 252 }
    {
        self.binomials[n][r] as usize
    }

    // Refuses a mask that is no group.
    fn judge(&self, mask: u16) -> Result<(), Refusal>
        ensures { Passes (mask_refusal self.now.plan.harbours self.now.plan.threshold mask) result }
    {
        if mask == 0
            || mask.count_ones() as usize != self.plan.threshold()
            || mask >> self.plan.harbours() != 0
        {
            return Err(Refusal::NotAGroup);
        }
        Ok(())
    }

    // What a bit adds to the rank of a mask, by its position, with one bit left out.
    // Kept: two tests and no match on an Ordering, which is made into a number and taken apart again at each bit of each find.
    fn adds(&self, bit: usize, position: usize, left_out: usize) -> usize
        requires row { bit < self.now.plan.harbours }
        requires first { 1 ≤ position }
        requires column { position ≤ 10 }
        ensures value { result ≡ on_card left_out bit position }
        ensures few { result ≤ 252 }
    {
        if bit < left_out {
            return self.chosen(bit, position);
        }
        if bit > left_out {
            return self.chosen(bit - 1, position - 1);
        }
        0
    }

    // The rank of a mask among those with as many bits, or on a harbour's card, with that harbour's bit left out.
    fn ranked(&self, mask: u16, left_out: usize) -> usize
        ensures value { result ≡ weighed (on_card left_out) 1 (members self.now.plan.harbours mask) }
        ensures few { result ≤ 2520 }
    {
        (0..self.plan.harbours())
            .filter(|&bit| has_bit(mask, bit))
            .enumerate()
            .map(|(below, bit)| self.adds(bit, below + 1, left_out))
            .sum()
    }

    // The number of the group with this mask, C(p1, 1) + .. + C(pt, t) over its bits.
    pub fn number(&self, mask: u16) -> Result<usize, Refusal>
        ensures { Numbers (shape_of self.now.plan) mask result }
    {
        self.judge(mask)?;
        Ok(self.ranked(mask, self.plan.harbours()))
    }

    // The place in the tray, counted from the binomials: the cards before that of the bit, and on it the groups before.
    fn counted_place(&self, mask: u16, bit: usize) -> usize
        requires { bit < 16 }
        ensures { result ≡ self.now.plan.components * (bit * choose (self.now.plan.harbours - 1) (self.now.plan.threshold - 1) + weighed (on_card bit) 1 (members self.now.plan.harbours mask)) }
    {
        let on_each = self.chosen(self.plan.harbours() - 1, self.plan.threshold() - 1);
        let before = bit * on_each + self.ranked(mask, bit);
        self.plan.components() * before
    }

    // Where a group's slips begin on a member's card, as a place in the tray, and the sign under which they restore the key.
    // Kept: the place and the sign are a pair of numbers by rule.
    pub fn find(&self, mask: u16, harbour: usize) -> Result<(usize, i8), Refusal>
        ensures { Found (shape_of self.now.plan) mask harbour result }
    {
        self.judge(mask)?;
        let position = position(mask, harbour)?;
        Ok((self.counted_place(mask, harbour - 1), sign(position)))
    }
}
