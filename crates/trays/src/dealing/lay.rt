ghost use Rattle.std.specs.Prelude.{◌≡◌, ◌-◌, ◌*◌, ◌<◌, ◌≤◌, map, length};
ghost use Rattle.plans.specs.Shape.{group_count, shape_of};
ghost use Rattle.sharing.specs.Calls.{tray_length};
ghost use Rattle.sharing.specs.Threshold.{scheme_of};
ghost use Rattle.trays.specs.Dealings.{LaidCards, dealt_tray};
ghost use Rattle.trays.specs.Laying.{block_of};

use crate::dealing::Dealing;
use crate::dealing::source::Source;
use crate::slips::part;
use kinds::element::Element;

impl<'t, 'a, E: Element> Dealing<'t, 'a, E> {
    // What the slips of a group are laid from.
    fn source(&self, number: usize) -> Source<'a, E>
        requires { number < group_count (shape_of self.now.table.now.plan) }
        ensures key { result.key ≡ self.now.key }
        ensures own { result.own.now ≡ block_of (self.now.table.now.plan.components * (self.now.table.now.plan.threshold - 1)) number self.now.random.now }
        ensures size { result.size ≡ self.now.table.now.plan.components }
    {
        let plan = self.table.plan();
        let size = plan.components();
        let own = part(self.random, number, size * (plan.threshold() - 1));
        Source {
            key: self.key,
            own,
            size,
        }
    }

    // Lays the card of a harbour behind the cards before it.
    fn lay_card(&self, harbour: usize, tray: &mut [E])
        requires some { 1 ≤ harbour }
        requires few { harbour ≤ self.now.table.now.plan.harbours }
        requires room { length tray.old ≡ tray_length (scheme_of self.now.table.now.plan) }
        requires before { LaidCards E.Element.group E.Element.meaning self.now (harbour - 1) tray.old }
        ensures laid { LaidCards E.Element.group E.Element.meaning self.now harbour tray.new }
        ensures long { length tray.new ≡ length tray.old }
    {
        for (number, mask) in self.table.masks().iter().enumerate() {
            if let Ok((place, sign)) = self.table.find(*mask, harbour) {
                let block = (sign != 1).then_some((*mask >> harbour).count_ones() as usize);
                self.source(number).lay_at(tray, place, block);
            }
        }
    }

    // Lays the whole tray, card by card.
    pub(crate) fn lay(&self, tray: &mut [E])
        requires { length tray.old ≡ tray_length (scheme_of self.now.table.now.plan) }
        ensures { map E.Element.meaning tray.new ≡ dealt_tray E.Element.group E.Element.meaning self.now }
    {
        for harbour in 1..=self.table.plan().harbours() {
            self.lay_card(harbour, tray);
        }
    }
}
