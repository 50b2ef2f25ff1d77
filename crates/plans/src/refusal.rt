ghost use Rattle.std.specs.Prelude.{◌≡◌};
ghost use Rattle.plans.specs.Refusals.{number_of};

use thiserror::Error;

// Why a call on a plan is turned away. Each case has a number, by which crews and programs know it.
#[derive(Clone, Copy, PartialEq, Eq, Debug, Error)]
pub enum Refusal {
    #[error("refused {}: the number of harbours is not 1 to 10", self.number())]
    Harbours = 1,
    #[error("refused {}: the threshold is not 1 to the number of harbours", self.number())]
    Threshold = 2,
    #[error("refused {}: the number of components is not 1 to 8", self.number())]
    Components = 3,
    #[error("refused {}: there is no group with this number", self.number())]
    NoSuchGroup = 4,
    #[error("refused {}: the mask is no group of the plan", self.number())]
    NotAGroup = 5,
    #[error("refused {}: the harbour is no member of the group", self.number())]
    NotAMember = 6,
    #[error("refused {}: the row or the column is past the matrix", self.number())]
    PastTheMatrix = 7,
}

impl Refusal {
    // The number of this refusal.
    pub fn number(self) -> u8
        ensures { result ≡ number_of self }
    {
        self as u8
    }
}
