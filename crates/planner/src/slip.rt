// Where the slips of a group lie on a card.
ghost use Rattle.std.specs.Prelude.{◌≡◌, pos, negsuc, MatchOption};
ghost use Rattle.plans.specs.Shape.{shape_of};
ghost use Rattle.planner.specs.Slips.{Absent, Lies};

use plans::table::Table;
use std::fmt;

// The place in the tray of a group's component 0 on a card, and the sign under which its slips restore the key.
#[derive(Clone, Copy)]
pub struct Slip {
    pub place: usize,
    // Kept: a number by rule, as the table finds it.
    pub sign: i8,
}

impl Slip {
    // The slip of a group on a harbour's card, if the harbour is a member.
    pub fn of(table: &Table, number: usize, harbour: usize) -> Option<Slip>
        ensures { MatchOption result (Absent (shape_of table.now.plan) number harbour) (λ x. Lies (shape_of table.now.plan) number harbour x) }
    {
        let mask = table.group(number).ok()?;
        let (place, sign) = table.find(mask, harbour).ok()?;
        Some(Slip { place, sign })
    }

    // The sign as it is printed.
    // Kept: a clause tells the character, and none can tell what Display writes.
    pub fn mark(self) -> char
        ensures plus { self.sign ≡ pos 1 → result ≡ 43 }
        ensures minus { self.sign ≡ negsuc 0 → result ≡ 45 }
    {
        if self.sign < 0 { '-' } else { '+' }
    }
}

impl fmt::Display for Slip {
    fn fmt<W: fmt::Write>(&self, f: &mut fmt::Formatter<W>) -> fmt::Result {
        write!(f, "{} {}", self.place, self.mark())
    }
}
