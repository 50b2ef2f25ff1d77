ghost use Rattle.kinds.specs.Kinds.{byte, bytes};
ghost use Rattle.std.proofs.Common.{rules};

use crate::card::{Card, ElementFault};
use crate::element::Element;
use crate::kind::Kind;

// A mask byte: eight bits, added by exclusive or, so that each is its own opposite.
#[derive(Clone, Copy, Debug)]
pub struct MaskByte {
    pub value: u8,
}

impl Element for MaskByte {
    ghost group = { bytes };

    ghost meaning = { λ e. byte e.value };

    fn zero() -> Self {
        MaskByte { value: 0 }
    }

    fn sum(&self, other: &Self) -> Self {
        MaskByte {
            value: self.value ^ other.value,
        }
    }

    fn opposite(&self) -> Self {
        *self
    }

    fn same(&self, other: &Self) -> bool {
        // Kept: the proof of a derived == does not know that the fields are below their type's bound.
        self.value == other.value
    }
}

impl Card for MaskByte {
    ghost coded = { λ e. (byte e.value).number };

    ghost kind = { 2 };

    ghost bits = { 8 };

    ghost numbered = { Prim.search rules };

    ghost wide = { Prim.search rules };

    fn kind_code() -> u8 {
        Kind::MaskByte.code()
    }

    fn width() -> u32 {
        8
    }

    fn code(&self) -> u32 {
        u32::from(self.value)
    }

    fn from_code(code: u32) -> Result<Self, ElementFault> {
        u8::try_from(code)
            .map(|value| MaskByte { value })
            .map_err(|_| ElementFault::NotACode)
    }
}
