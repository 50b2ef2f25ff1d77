ghost use Rattle.picturebench.specs.Work.{Copies, PlaceFits, Reads};

use kinds::card::Card;
use pictures::load::load;
use pictures::write::write;

// How many slips the place has.
const SLIPS: usize = 1008;

// Loads a picture, and answers the code of a slip, 0 where it is not loaded or there is no such slip.
// Kept: 0 and no Option, here and below, since C is answered a number.
pub(crate) fn loaded<C: Card + Copy>(picture: &[u8], at: usize) -> u32
    requires { PlaceFits 1008 C.row }
    ensures { Reads C.Card.coded C.Card.kind C.Card.bits picture.now 1008 at result }
{
    let mut slips = [C::zero(); SLIPS];
    match load(picture, &mut slips) {
        Ok(_) => slips.get(at).map_or(0, |slip| slip.code()),
        Err(_) => 0,
    }
}

// Loads a picture and writes it to the place so many times; answers how many times, 0 where it is refused.
pub(crate) fn copied<C: Card + Copy>(picture: &[u8], times: u32, place: &mut [u8]) -> u32
    requires { PlaceFits 1008 C.row }
    ensures { Copies picture.now place.new times result }
{
    let mut slips = [C::zero(); SLIPS];
    let Ok(head) = load(picture, &mut slips) else {
        return 0;
    };
    for _turn in 0..times {
        let Ok(()) = write(&head, &slips, place) else {
            return 0;
        };
    }
    times
}
