ghost use Rattle.std.specs.Prelude.{◌≡◌, ◌+◌, ◌*◌, ◌≤◌, map, length};
ghost use Rattle.sharing.specs.Dealing.{added, zeros};
ghost use Rattle.trays.specs.Laying.{block_of};

use kinds::element::Element;

// The part with a number, from 0, where all parts are of one size.
pub(crate) fn part<E: Element>(all: &[E], number: usize, size: usize) -> &[E]
    requires { (number + 1) * size ≤ length all.now }
    ensures { result.now ≡ block_of size number all.now }
{
    let start = number * size;
    &all[start..start + size]
}

// Copies elements, by what they mean, to places of the same number.
pub(crate) fn copy<E: Element>(to: &mut [E], from: &[E])
    requires { length to.old ≡ length from.now }
    ensures { map E.Element.meaning to.new ≡ map E.Element.meaning from.now }
{
    let zero = E::zero();
    // Kept: after a zip of iter_mut a proof knows nothing of what was written, so the others are read at the place;
    // and no wipe with an add behind it, which would write each place twice.
    for (place, own) in to.iter_mut().enumerate() {
        *own = zero.sum(&from[place]);
    }
}

// Adds elements to others, place by place.
pub(crate) fn add<E: Element>(to: &mut [E], from: &[E])
    requires { length to.old ≡ length from.now }
    ensures { map E.Element.meaning to.new ≡ added E.Element.group (map E.Element.meaning to.old) (map E.Element.meaning from.now) }
{
    // Kept: after a zip of iter_mut a proof knows nothing of what was written, so the others are read at the place.
    for (place, own) in to.iter_mut().enumerate() {
        *own = own.sum(&from[place]);
    }
}

// Makes every place zero.
pub(crate) fn wipe<E: Element>(places: &mut [E])
    ensures { map E.Element.meaning places.new ≡ zeros E.Element.group (length places.old) }
{
    for place in places {
        *place = E::zero();
    }
}
