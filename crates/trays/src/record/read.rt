ghost use Rattle.sharing.specs.Calls.{read, refusal};
ghost use Rattle.trays.specs.Refusals.{Passes};
ghost use Rattle.trays.specs.Turns.{HandsOut, ReadTurns, told_by};

use crate::record::Record;
use crate::refusal::Refusal;
use crate::slips::part;
use kinds::element::Element;

impl Record {
    // Refuses a reading by the harbour and the length of the tray.
    // Kept: each call tests its own lengths, so that the order of its refusals is read off.
    fn judge_read(&self, harbour: usize, tray: usize) -> Result<(), Refusal>
        ensures { Passes (refusal 0 (told_by self.now) (read harbour tray)) result }
    {
        if tray != self.plan.tray_length() {
            return Err(Refusal::Tray);
        }
        if harbour < 1 || harbour > self.plan.harbours() {
            return Err(Refusal::NoSuchHarbour);
        }
        Ok(())
    }

    // Hands out a harbour's part of the tray.
    pub fn read<'a, E: Element>(&self, tray: &'a [E], harbour: usize) -> Result<&'a [E], Refusal>
        ensures turns { ReadTurns E.Element.group E.Element.meaning (told_by self.now) harbour tray.now result }
        ensures part { HandsOut (told_by self.now) harbour tray.now result }
    {
        self.judge_read(harbour, tray.len())?;
        Ok(part(tray, harbour - 1, self.plan.card_length()))
    }
}
