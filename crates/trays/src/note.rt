use crate::refusal::Refusal;

// The note of a draw. It cannot be copied, made elsewhere or forgotten: apply or discard spends it.
pub struct Note {
    round: u16,
}

// A note that a call did not take, and why.
pub struct Returned {
    pub refusal: Refusal,
    pub note: Note,
}

pub(crate) mod make;
