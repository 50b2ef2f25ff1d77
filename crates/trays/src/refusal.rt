ghost use Rattle.std.specs.Prelude.{◌≡◌};
ghost use Rattle.trays.specs.Refusals.{number_of};

use thiserror::Error;

// Why a call on a tray is turned away. Each case has a number, by which crews and programs know it.
#[derive(Clone, Copy, PartialEq, Eq, Debug, Error)]
pub enum Refusal {
    #[error("refused {}: the key has not as many elements as the plan has components", self.number())]
    Key = 8,
    #[error("refused {}: there are not as many random elements as a dealing takes", self.number())]
    Random = 9,
    #[error("refused {}: the tray is not as long as the plan's", self.number())]
    Tray = 10,
    #[error("refused {}: a draw is open", self.number())]
    DrawIsOpen = 11,
    #[error("refused {}: the record is in its last round", self.number())]
    LastRound = 12,
    #[error("refused {}: the sheet is not as long as the tray", self.number())]
    Sheet = 13,
    #[error("refused {}: no draw is open, or the note bears another round", self.number())]
    NotCurrent = 14,
    // The harbour is 0 or above the number of harbours.
    #[error("refused {}: there is no such harbour", self.number())]
    NoSuchHarbour = 15,
}

impl Refusal {
    // The number of this refusal.
    pub fn number(self) -> u8
        ensures { result ≡ number_of self }
    {
        self as u8
    }
}
