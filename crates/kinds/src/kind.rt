ghost use Rattle.std.specs.Prelude.{◌≡◌};
ghost use Rattle.kinds.specs.Codes.{Decodes, code_of};

use thiserror::Error;

// The kinds of card that there are, by the code that tells each from the others in a picture.
#[derive(Clone, Copy, PartialEq, Eq, Debug)]
pub enum Kind {
    KeyWord = 1,
    MaskByte = 2,
    DialNumber = 3,
}

// A code that no kind has.
#[derive(Clone, Copy, PartialEq, Eq, Debug, Error)]
#[error("no kind of card has the code {0}")]
pub struct UnknownKind(pub u8);

impl Kind {
    // The code of this kind.
    pub fn code(self) -> u8
        ensures { result ≡ code_of self }
    {
        self as u8
    }
}

impl TryFrom<u8> for Kind {
    type Error = UnknownKind;

    ghost try_from_gives = { Decodes };

    fn try_from(code: u8) -> Result<Self, UnknownKind> {
        match code {
            1 => Ok(Kind::KeyWord),
            2 => Ok(Kind::MaskByte),
            3 => Ok(Kind::DialNumber),
            _ => Err(UnknownKind(code)),
        }
    }
}
