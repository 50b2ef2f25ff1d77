ghost use Rattle.std.specs.Prelude.{MatchResult};
ghost use Rattle.pictures.specs.Faults.{number_of, slip_of};
ghost use Rattle.pictures.specs.Reading.{Checked, Coded, HoldsCodes, Judges, ReadThrough, codes_of, rest_of};

use crate::fault::CardFault;
use crate::head::CardHead;
use crate::open::open;
use crate::reader::BitReader;
use kinds::card::Card;

// Checks a body of so many codes: each is an element's, and the bits behind them are 0.
pub(crate) fn check_body<C: Card>(body: &[u8], slips: usize) -> Result<(), CardFault>
    requires { HoldsCodes C.Card.bits slips body.now }
    ensures { MatchResult result
        (λ _. ReadThrough (Coded C.Card.coded) (codes_of C.Card.bits slips body.now) (rest_of C.Card.bits slips body.now) 0 0)
        (λ f. ReadThrough (Coded C.Card.coded) (codes_of C.Card.bits slips body.now) (rest_of C.Card.bits slips body.now) (number_of f) (slip_of f)) }
{
    let mut reader = BitReader::new(body, C::width());
    for slip in 0..slips {
        reader.element::<C>(slip)?;
    }
    if reader.held() != 0 {
        return Err(CardFault::Filling);
    }
    Ok(())
}

// Checks the picture of a card of this kind, and answers its head.
// Kept: clauses name the members of a kind one by one, as the definitions take them for any coding.
pub fn check<C: Card>(picture: &[u8]) -> Result<CardHead, CardFault>
    ensures { Checked C.Card.coded C.Card.kind C.Card.bits picture.now result }
{
    let head = open(picture, C::kind_code(), C::width())?;
    check_body::<C>(&picture[9..], head.plan.card_length())?;
    Ok(head)
}

// 0 for a sound picture of a card of this kind, otherwise the number of its fault.
// Kept: a number, since it is what C programs are answered, and a match, since in a chain of `err` and `map_or` the proof did not close.
pub fn refusal<C: Card>(picture: &[u8]) -> u32
    ensures { Judges C.Card.coded C.Card.kind C.Card.bits picture.now result }
{
    match check::<C>(picture) {
        Ok(_) => 0,
        Err(fault) => u32::from(fault.number()),
    }
}
