ghost use Rattle.std.specs.Prelude.{◌≡◌, ◌-◌, ◌<◌, ◌≤◌, T, ◌↔◌};
ghost use Rattle.plans.specs.Shape.{group_count, shape_of};
ghost use Rattle.trays.specs.Trays.{Asks, all_restored, one_restored, restored_so_far};

use crate::tray::Tray;
use kinds::element::Element;

impl<'a, E: Element> Tray<'a, E> {
    // What the harbours before this one restore, with its own slip under its sign, if it is of the group.
    fn with_slip(&self, sum: E, number: usize, harbour: usize, component: usize) -> E
        requires asked { Asks self.now number component }
        requires some { 1 ≤ harbour }
        requires few { harbour ≤ self.now.table.now.plan.harbours }
        requires before { E.Element.meaning sum ≡ restored_so_far E.Element.group E.Element.meaning self.now number (harbour - 1) component }
        ensures { E.Element.meaning result ≡ restored_so_far E.Element.group E.Element.meaning self.now number harbour component }
    {
        let Ok((place, sign)) = self.table.find(self.table.masks()[number], harbour) else {
            return sum;
        };
        let slip = &self.slips[place + component];
        if sign == 1 {
            sum.sum(slip)
        } else {
            sum.sum(&slip.opposite())
        }
    }

    // What a group restores for a component: the sum of its slips in the tray under their signs.
    fn restore_one(&self, number: usize, component: usize) -> E
        requires { Asks self.now number component }
        ensures { E.Element.meaning result ≡ one_restored E.Element.group E.Element.meaning self.now number component }
    {
        // Kept: a running sum, no less plain than a fold whose closure calls the same method.
        let mut sum = E::zero();
        for harbour in 1..=self.table.plan().harbours() {
            sum = self.with_slip(sum, number, harbour, component);
        }
        sum
    }

    // Whether a group restores for a component what group 0 does.
    fn restores_one_alike(&self, number: usize, component: usize) -> bool
        requires { Asks self.now number component }
        ensures { T result ↔ (one_restored E.Element.group E.Element.meaning self.now number component ≡ one_restored E.Element.group E.Element.meaning self.now 0 component) }
    {
        let first = self.restore_one(0, component);
        self.restore_one(number, component).same(&first)
    }

    // Whether a group restores what group 0 does.
    pub(crate) fn restores_alike(&self, number: usize) -> bool
        requires { number < group_count (shape_of self.now.table.now.plan) }
        ensures { T result ↔ (all_restored E.Element.group E.Element.meaning self.now number ≡ all_restored E.Element.group E.Element.meaning self.now 0) }
    {
        let components = self.table.plan().components();
        (0..components).all(|component| self.restores_one_alike(number, component))
    }
}
