// What a picture comes to.
ghost use Rattle.std.specs.Prelude.{◌≡◌, IfOk, vec_len, Decides};
ghost use Rattle.cardcheck.specs.Cards.{Finds, WritesSame};

use crate::told::{Told, Unsound};
use kinds::card::Card;
use pictures::check::check;
use pictures::load::load;
use pictures::write::write;
use std::alloc::{AllocError, Global};

// So many elements.
fn elements<C: Card>(heap: Global, count: usize) -> Result<Vec<C>, AllocError>
    ensures { IfOk result (λ v. vec_len v ≡ count) }
{
    (0..count).map(|_| C::zero()).collect(heap)
}

// The card of a picture, or why it is refused.
fn told<C: Card>(heap: Global, picture: &[u8]) -> Result<Told<C>, Unsound>
    ensures { Finds C.Card.coded C.Card.kind C.Card.bits picture.now result }
{
    let count = check::<C>(picture)?.plan.card_length();
    let mut slips = elements::<C>(heap, count)?;
    let head = load(picture, slips.as_mut_slice())?;
    Ok(Told { head, slips })
}

// Whether the card, written again, gives the same picture.
fn rewrites<C: Card>(heap: Global, card: &Told<C>, picture: &[u8]) -> Result<bool, AllocError>
    ensures { IfOk result (λ b. Decides b (WritesSame C.Card.coded C.Card.kind C.Card.bits picture.now card.now)) }
{
    let mut place = Vec::from_elem(heap, 0u8, picture.len())?;
    // Kept: with `is_ok` and one comparison behind it the proof did not close.
    match write(&card.head, card.slips.as_slice(), place.as_mut_slice()) {
        Ok(()) => Ok(place.as_slice() == picture),
        Err(_) => Ok(false),
    }
}

// The card of a picture of this kind, which written again gives the same bytes, or why there is none.
pub fn judge<C: Card>(heap: Global, picture: &[u8]) -> Result<Told<C>, Unsound>
    ensures { Finds C.Card.coded C.Card.kind C.Card.bits picture.now result }
{
    let card = told::<C>(heap, picture)?;
    if !rewrites(heap, &card, picture)? {
        return Err(Unsound::Otherwise);
    }
    Ok(card)
}
