ghost use Rattle.kinds.specs.Kinds.{word, words};
ghost use Rattle.std.proofs.Common.{rules};

use crate::card::{Card, ElementFault};
use crate::element::Element;
use crate::kind::Kind;

// A key word: 32 bits, added modulo 2^32.
#[derive(Clone, Copy, Debug)]
pub struct KeyWord {
    pub value: u32,
}

impl Element for KeyWord {
    ghost group = { words };

    ghost meaning = { λ e. word e.value };

    fn zero() -> Self {
        KeyWord { value: 0 }
    }

    fn sum(&self, other: &Self) -> Self {
        KeyWord {
            value: self.value.wrapping_add(other.value),
        }
    }

    fn opposite(&self) -> Self {
        KeyWord {
            value: self.value.wrapping_neg(),
        }
    }

    fn same(&self, other: &Self) -> bool {
        // Kept: the proof of a derived == does not know that the fields are below their type's bound.
        self.value == other.value
    }
}

impl Card for KeyWord {
    ghost coded = { λ e. (word e.value).number };

    ghost kind = { 1 };

    ghost bits = { 32 };

    ghost numbered = { Prim.search rules };

    ghost wide = { Prim.search rules };

    fn kind_code() -> u8 {
        Kind::KeyWord.code()
    }

    fn width() -> u32 {
        32
    }

    fn code(&self) -> u32 {
        self.value
    }

    fn from_code(code: u32) -> Result<Self, ElementFault> {
        Ok(KeyWord { value: code })
    }
}
