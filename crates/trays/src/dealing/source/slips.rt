ghost use Rattle.std.specs.Prelude.{◌≡◌, ◌+◌, ◌/◌, ◌<◌, ◌≤◌, ◌++◌, map, length, take, IfSome};
ghost use Rattle.trays.specs.Laying.{key_of};
ghost use Rattle.trays.specs.Sources.{first_slips, slips_of};

use crate::dealing::source::Source;
use crate::slips::{add, copy, part, wipe};
use kinds::element::Element;

impl<'a, E: Element> Source<'a, E> {
    // Kept: three methods ask for a place as long as the key, of which no field of a source can speak.

    // Lays the key, or zeros where there is none.
    fn lay_key(&self, to: &mut [E])
        requires { length to.old ≡ self.now.size }
        ensures { map E.Element.meaning to.new ≡ key_of E.Element.group E.Element.meaning self.now.size self.now.key }
    {
        match self.key {
            Some(key) => copy(to, key),
            None => wipe(to),
        }
    }

    // Lays the slips of the group's first member: the key, and every random block.
    fn lay_first(&self, to: &mut [E])
        requires { length to.old ≡ self.now.size }
        ensures { map E.Element.meaning to.new ≡ first_slips E.Element.group E.Element.meaning self.now }
    {
        self.lay_key(to);
        for block in self.own.chunks(self.size) {
            add(to, block);
        }
    }

    // Lays a member's slips: those of the first member, or the block that is the member's.
    fn lay(&self, to: &mut [E], block: Option<usize>)
        requires size { length to.old ≡ self.now.size }
        requires block { IfSome block (λ b. b < length self.now.own.now / self.now.size) }
        ensures { map E.Element.meaning to.new ≡ slips_of E.Element.group E.Element.meaning self.now block }
    {
        match block {
            None => self.lay_first(to),
            Some(number) => copy(to, part(self.own, number, self.size)),
        }
    }

    // Lays a member's slips from a place of the tray on.
    pub(crate) fn lay_at(&self, tray: &mut [E], place: usize, block: Option<usize>)
        requires room { place + self.now.size ≤ length tray.old }
        requires block { IfSome block (λ b. b < length self.now.own.now / self.now.size) }
        ensures laid { take (place + self.now.size) (map E.Element.meaning tray.new) ≡ take place (map E.Element.meaning tray.old) ++ slips_of E.Element.group E.Element.meaning self.now block }
        ensures long { length tray.new ≡ length tray.old }
    {
        self.lay(&mut tray[place..place + self.size], block);
    }
}
