ghost use Rattle.kinds.specs.Kinds.{dial, dials};
ghost use Rattle.std.proofs.Common.{rules};

use crate::card::{Card, ElementFault};
use crate::element::Element;
use crate::kind::Kind;

// A dial number: 0 to 9,999, added modulo 10,000. It means what it holds modulo 10,000, whatever it holds.
#[derive(Clone, Copy, Debug)]
pub struct DialNumber {
    pub held: u16,
}

impl DialNumber {
    // How many dial numbers there are.
    const COUNT: u16 = 10_000;
}

impl Element for DialNumber {
    ghost group = { dials };

    ghost meaning = { λ e. dial e.held };

    fn zero() -> Self {
        DialNumber { held: 0 }
    }

    fn sum(&self, other: &Self) -> Self {
        DialNumber {
            held: (self.held % Self::COUNT + other.held % Self::COUNT) % Self::COUNT,
        }
    }

    fn opposite(&self) -> Self {
        DialNumber {
            held: (Self::COUNT - self.held % Self::COUNT) % Self::COUNT,
        }
    }

    fn same(&self, other: &Self) -> bool {
        self.held % Self::COUNT == other.held % Self::COUNT
    }
}

impl Card for DialNumber {
    ghost coded = { λ e. (dial e.held).number };

    ghost kind = { 3 };

    ghost bits = { 14 };

    ghost numbered = { Prim.search rules };

    ghost wide = { Prim.search rules };

    fn kind_code() -> u8 {
        Kind::DialNumber.code()
    }

    fn width() -> u32 {
        14
    }

    fn code(&self) -> u32 {
        u32::from(self.held % Self::COUNT)
    }

    fn from_code(code: u32) -> Result<Self, ElementFault> {
        if code >= u32::from(Self::COUNT) {
            return Err(ElementFault::NotACode);
        }
        Ok(DialNumber { held: code as u16 })
    }
}
