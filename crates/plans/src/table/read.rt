ghost use Rattle.std.specs.Prelude.{◌≡◌};
ghost use Rattle.plans.specs.Calls.{Grouped};
ghost use Rattle.plans.specs.Numbering.{Undoes};
ghost use Rattle.plans.specs.Shape.{masks_of, shape_of};

use crate::plan::Plan;
use crate::refusal::Refusal;
use crate::table::Table;

impl Table {
    // The plan whose groups these are.
    pub fn plan(&self) -> Plan
        ensures { shape_of result ≡ shape_of self.now.plan }
    {
        self.plan
    }

    // The masks of the groups, by number.
    pub fn masks(&self) -> &[u16]
        ensures value { result.now ≡ masks_of (shape_of self.now.plan) }
        ensures undoes { Undoes }
    {
        &self.masks[..self.count]
    }

    // The mask of the group with this number.
    pub fn group(&self, number: usize) -> Result<u16, Refusal>
        ensures { Grouped (shape_of self.now.plan) number result }
    {
        self.masks()
            .get(number)
            .copied()
            .ok_or(Refusal::NoSuchGroup)
    }
}
