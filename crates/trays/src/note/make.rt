ghost use Rattle.std.specs.Prelude.{◌≡◌};

use crate::note::Note;

impl Note {
    // The note of a draw in this round.
    pub(crate) fn new(round: u16) -> Note
        ensures { result.round ≡ round }
    {
        Note { round }
    }

    // The round that it bears.
    pub fn round(&self) -> u16
        ensures { result ≡ self.now.round }
    {
        self.round
    }

    // Spends the note, and answers the round that it bore.
    pub(crate) fn spend(self) -> u16
        ensures { result ≡ self.round }
    {
        let Note { round } = self;
        round
    }
}
