ghost use Rattle.std.specs.Prelude.{◌≡◌, map, length, All, MatchResult};
ghost use Rattle.pictures.specs.Reading.{Coded, HoldsCodes, Loaded, codes_of};

use crate::check::check_body;
use crate::fault::CardFault;
use crate::head::CardHead;
use crate::open::open;
use crate::reader::BitReader;
use kinds::card::Card;

// Writes the elements of a body's codes to the place.
fn load_body<C: Card>(body: &[u8], place: &mut [C]) -> Result<(), CardFault>
    requires { HoldsCodes C.Card.bits (length place.old) body.now }
    ensures { MatchResult result
        (λ _. map C.Card.coded place.new ≡ codes_of C.Card.bits (length place.old) body.now)
        (λ _. All (Coded C.Card.coded) (codes_of C.Card.bits (length place.old) body.now) → ⊥) }
{
    let mut reader = BitReader::new(body, C::width());
    for (slip, element) in place.iter_mut().enumerate() {
        *element = reader.element(slip)?;
    }
    Ok(())
}

// Loads the picture of a card of this kind: writes its slips to the place and answers its head. Refused, it leaves the place as it was.
pub fn load<C: Card>(picture: &[u8], place: &mut [C]) -> Result<CardHead, CardFault>
    ensures { Loaded C.Card.coded C.Card.kind C.Card.bits picture.now place.old place.new result }
{
    let head = open(picture, C::kind_code(), C::width())?;
    let slips = head.plan.card_length();
    let body = &picture[9..];
    check_body::<C>(body, slips)?;
    if place.len() != slips {
        return Err(CardFault::Place);
    }
    load_body(body, place)?;
    Ok(head)
}
