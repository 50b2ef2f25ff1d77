ghost use Rattle.std.specs.Prelude.{◌≡◌};
ghost use Rattle.pictures.specs.Faults.{number_of, slip_of, write_number_of};
ghost use Rattle.pictures.specs.declared.fault.CardFault.TheVariants.{Slip};

use crate::fault::{At, CardFault, WriteFault};
use kinds::card::ElementFault;

// Kept: by hand, since a derived From does not say what it gives.
impl From<At<ElementFault>> for CardFault {
    ghost from_gives = { λ x r. r ≡ Slip x };

    fn from(value: At<ElementFault>) -> Self {
        CardFault::Slip(value)
    }
}

impl CardFault {
    // The number of this fault.
    // Kept: a match, since only an enum whose variants all stand alone has discriminants, and Slip holds its place.
    pub fn number(self) -> u8
        ensures { result ≡ number_of self }
    {
        match self {
            CardFault::TooShort => 20,
            CardFault::Format => 21,
            CardFault::Kind => 22,
            CardFault::Ranges => 23,
            CardFault::Length => 24,
            CardFault::Slip(_) => 25,
            CardFault::Filling => 26,
            CardFault::Place => 19,
        }
    }

    // The slip whose code is no element's, from 0, and 0 where no code is at fault.
    // Kept: 0 and no Option by rule, which names this place for every fault.
    pub fn slip(self) -> usize
        ensures { result ≡ slip_of self }
    {
        match self {
            CardFault::Slip(at) => at.place,
            _ => 0,
        }
    }
}

impl WriteFault {
    // The number of this fault.
    pub fn number(self) -> u8
        ensures { result ≡ write_number_of self }
    {
        self as u8
    }
}
