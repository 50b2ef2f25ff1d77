ghost use Rattle.std.specs.Prelude.{◌≡◌};
ghost use Rattle.plans.specs.Shape.{shape_of};

use crate::record::Record;
use plans::plan::Plan;

impl Record {
    // The plan of the tray.
    pub fn plan(&self) -> Plan
        ensures { shape_of result ≡ shape_of self.now.plan }
    {
        self.plan
    }

    // The issue number.
    pub fn issue(&self) -> u32
        ensures { result ≡ self.now.issue }
    {
        self.issue
    }

    // The round, from 0.
    pub fn round(&self) -> u16
        ensures { result ≡ self.now.round }
    {
        self.round
    }

    // Whether a draw is open.
    pub fn is_drawn(&self) -> bool
        ensures { result ≡ self.now.drawn }
    {
        self.drawn
    }
}
