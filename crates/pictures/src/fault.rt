use kinds::card::ElementFault;
use thiserror::Error;

// A fault of the layer below, whole, and the place at which it was met.
#[derive(Clone, Copy, PartialEq, Eq, Debug)]
pub struct At<F> {
    pub place: usize,
    pub fault: F,
}

// Why a picture is turned away, or not loaded.
#[derive(Clone, Copy, PartialEq, Eq, Debug, Error)]
pub enum CardFault {
    #[error("refused {}: there are fewer than nine bytes", self.number())]
    TooShort,
    #[error("refused {}: the format is not 1", self.number())]
    Format,
    #[error("refused {}: the kind code is another kind's", self.number())]
    Kind,
    #[error("refused {}: harbours, threshold, components or harbour are out of range", self.number())]
    Ranges,
    #[error("refused {}: the length is not that of such a card's picture", self.number())]
    Length,
    #[error("refused {} at slip {}: {}", self.number(), .0.place, .0.fault)]
    Slip(At<ElementFault>),
    #[error("refused {}: a bit behind the codes is not 0", self.number())]
    Filling,
    #[error("refused {}: the place has not as many elements as the card", self.number())]
    Place,
}

// Why a picture is not written.
#[derive(Clone, Copy, PartialEq, Eq, Debug, Error)]
pub enum WriteFault {
    #[error("refused {}: there is no such harbour", self.number())]
    Harbour = 15,
    #[error("refused {}: there are not as many slips as on a card of the plan", self.number())]
    Slips = 19,
    #[error("refused {}: the place is not as long as the picture", self.number())]
    Place = 18,
}

pub mod numbers;
