ghost use Rattle.sharing.specs.Calls.{apply, refusal};
ghost use Rattle.trays.specs.Refusals.{Passes};
ghost use Rattle.trays.specs.Turns.{ApplyTurns, GivesBack, told_by};

use crate::note::{Note, Returned};
use crate::record::Record;
use crate::refusal::Refusal;
use crate::slips::{add, wipe};
use kinds::element::Element;

impl Record {
    // Refuses an apply by the note's round and the lengths of tray and sheet.
    // Kept: each call tests its own lengths, so that the order of its refusals is read off.
    fn judge_apply(&self, round: u16, tray: usize, sheet: usize) -> Result<(), Refusal>
        ensures { Passes (refusal 0 (told_by self.now) (apply round tray sheet)) result }
    {
        let length = self.plan.tray_length();
        if tray != length {
            return Err(Refusal::Tray);
        }
        if sheet != length {
            return Err(Refusal::Sheet);
        }
        if !self.drawn || round != self.round {
            return Err(Refusal::NotCurrent);
        }
        Ok(())
    }

    // Ends the round: adds the sheet to the tray, zeroes the sheet, closes the draw and spends the note.
    pub fn apply<E: Element>(
        &mut self,
        note: Note,
        tray: &mut [E],
        sheet: &mut [E],
    ) -> Result<(), Returned>
        ensures turns { ApplyTurns E.Element.group E.Element.meaning (told_by self.old) note tray.old sheet.old (told_by self.new) tray.new sheet.new result }
        ensures back { GivesBack note result }
    {
        // Kept: the closure of a map_err would take the note, which an accepted apply still spends.
        if let Err(refusal) = self.judge_apply(note.round(), tray.len(), sheet.len()) {
            return Err(Returned { refusal, note });
        }
        add(tray, sheet);
        wipe(sheet);
        self.drawn = false;
        self.round += 1;
        note.spend();
        Ok(())
    }
}
