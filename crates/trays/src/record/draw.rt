ghost use Rattle.sharing.specs.Calls.{draw, refusal};
ghost use Rattle.trays.specs.Refusals.{Passes};
ghost use Rattle.trays.specs.Turns.{DrawTurns, told_by};

use crate::dealing::Dealing;
use crate::note::Note;
use crate::record::Record;
use crate::refusal::Refusal;
use kinds::element::Element;

impl Record {
    // Refuses a draw by the lengths of random elements and sheet.
    // Kept: each call tests its own lengths, so that the order of its refusals is read off.
    #[tactic(auto, using(crate::proofs::Lengths::random_long, crate::proofs::Lengths::tray_long))]
    fn judge_draw(&self, random: usize, sheet: usize) -> Result<(), Refusal>
        ensures { Passes (refusal 0 (told_by self.now) (draw random sheet)) result }
    {
        if self.drawn {
            return Err(Refusal::DrawIsOpen);
        }
        if self.round == u16::MAX {
            return Err(Refusal::LastRound);
        }
        if random != self.plan.random_count() {
            return Err(Refusal::Random);
        }
        if sheet != self.plan.tray_length() {
            return Err(Refusal::Sheet);
        }
        Ok(())
    }

    // Opens a draw: fills the sheet with a dealing of the all-zero key, and gives a note that bears the round.
    pub fn draw<E: Element>(&mut self, random: &[E], sheet: &mut [E]) -> Result<Note, Refusal>
        ensures { DrawTurns E.Element.group E.Element.meaning (told_by self.old) random.now sheet.old (told_by self.new) sheet.new result }
    {
        self.judge_draw(random.len(), sheet.len())?;
        let table = self.plan.table();
        let dealing = Dealing {
            table: &table,
            key: None,
            random,
        };
        dealing.lay(sheet);
        self.drawn = true;
        Ok(Note::new(self.round))
    }
}
