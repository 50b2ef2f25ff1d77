// What a picture tells.
ghost use Rattle.std.specs.Prelude.{◌≡◌};
ghost use Rattle.cardcheck.specs.declared.told.Unsound.TheVariants.{NoMemory, Refused};

use pictures::fault::CardFault;
use pictures::head::CardHead;
use std::alloc::AllocError;

// A card as a picture tells it.
#[derive(Drop)]
pub struct Told<C> {
    pub head: CardHead,
    pub slips: Vec<C>,
}

// Why no card is told of a picture.
#[derive(Clone, Copy, PartialEq, Eq, Debug)]
pub enum Unsound {
    // It is refused.
    Refused(CardFault),
    // It is sound, and the card, written again, gives other bytes. This never happens.
    Otherwise,
    // There is no memory for the card.
    NoMemory(AllocError),
}

// Kept: these two by hand, since a derived From does not say what it gives.
impl From<CardFault> for Unsound {
    ghost from_gives = { λ x r. r ≡ Refused x };

    fn from(fault: CardFault) -> Self {
        Unsound::Refused(fault)
    }
}

impl From<AllocError> for Unsound {
    ghost from_gives = { λ x r. r ≡ NoMemory x };

    fn from(error: AllocError) -> Self {
        Unsound::NoMemory(error)
    }
}
