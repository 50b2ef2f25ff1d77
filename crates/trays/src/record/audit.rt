ghost use Rattle.trays.specs.Turns.{AuditTurns, told_by};

use crate::record::Record;
use crate::refusal::Refusal;
use crate::tray::Tray;
use kinds::element::Element;

impl Record {
    // The lowest group that restores otherwise than group 0, or none where every group restores the same.
    pub fn audit<E: Element>(&self, tray: &[E]) -> Result<Option<usize>, Refusal>
        ensures { AuditTurns E.Element.group E.Element.meaning (told_by self.now) tray.now result }
    {
        if tray.len() != self.plan.tray_length() {
            return Err(Refusal::Tray);
        }
        let table = self.plan.table();
        let tray = Tray {
            table: &table,
            slips: tray,
        };
        Ok((1..self.plan.group_count()).find(|number| !tray.restores_alike(*number)))
    }
}
