ghost use Rattle.trays.specs.Turns.{DiscardTurns, GivesBack, told_by};

use crate::answer::Discarded;
use crate::note::{Note, Returned};
use crate::record::Record;
use crate::refusal::Refusal;
use crate::slips::wipe;
use kinds::element::Element;

impl Record {
    // Spends the note without applying the draw. The sheet is wiped and the draw closed if it is this note's; otherwise nothing is altered.
    pub fn discard<E: Element>(
        &mut self,
        note: Note,
        sheet: &mut [E],
    ) -> Result<Discarded, Returned>
        ensures turns { DiscardTurns E.Element.group E.Element.meaning (told_by self.old) note sheet.old (told_by self.new) sheet.new result }
        ensures back { GivesBack note result }
    {
        if sheet.len() != self.plan.tray_length() {
            return Err(Returned {
                refusal: Refusal::Sheet,
                note,
            });
        }
        if note.spend() != self.round || !self.drawn {
            return Ok(Discarded::Stale);
        }
        wipe(sheet);
        self.drawn = false;
        Ok(Discarded::Wiped)
    }
}
