ghost use Rattle.std.specs.Prelude.{◌≤◌};

use std::fmt;

// A plan: how many harbours hold cards, how many of them restore the key, and of how many elements the key is.
// No plan outside the limits exists.
// Kept: no Model stands for `shape_of` in the contracts, since with one a clause would see the three numbers without their limits.
#[derive(Clone, Copy, PartialEq, Eq, Debug)]
pub struct Plan {
    harbours: usize,
    threshold: usize,
    components: usize,
    ghost some: { 1 ≤ harbours },
    ghost few: { harbours ≤ 10 },
    ghost someone: { 1 ≤ threshold },
    ghost within: { threshold ≤ harbours },
    ghost keyed: { 1 ≤ components },
    ghost short: { components ≤ 8 },
}

impl fmt::Display for Plan {
    fn fmt<W: fmt::Write>(&self, f: &mut fmt::Formatter<W>) -> fmt::Result {
        write!(
            f,
            "{} harbours, threshold {}, key of {}",
            self.harbours, self.threshold, self.components
        )
    }
}

mod counts;
mod make;
mod numbers;
