// The line that is printed of a picture.
use crate::judged::judge;
use crate::told::{Told, Unsound};
use kinds::card::Card;
use pictures::fault::CardFault;
use std::io;

// Prints why a picture is refused.
fn say_refused(rt: &HostRuntime, fault: CardFault) -> io::Result<()> {
    let number = fault.number();
    match fault {
        CardFault::Slip(at) => println!(rt; "refused {number} slip {}", at.place),
        _ => println!(rt; "refused {number}"),
    }
}

// Prints what a sound picture tells.
fn say_sound<C: Card>(rt: &HostRuntime, kind: &str, card: &Told<C>) -> io::Result<()> {
    let harbours = card.head.plan.harbours();
    let threshold = card.head.plan.threshold();
    let components = card.head.plan.components();
    let harbour = card.head.harbour;
    let issue = card.head.issue;
    let round = card.head.round;
    print!(rt; "sound {kind} harbours {harbours} threshold {threshold} harbour {harbour}")?;
    print!(rt; " components {components} issue {issue} round {round} slips")?;
    for slip in card.slips.as_slice() {
        let code = slip.code();
        print!(rt; " {code}")?;
    }
    println!(rt)
}

// Prints what a picture of a kind comes to.
pub(crate) fn say<C: Card>(rt: &HostRuntime, kind: &str, picture: &[u8]) -> io::Result<()> {
    match judge::<C>(rt.alloc(), picture) {
        Ok(card) => say_sound(rt, kind, &card),
        Err(Unsound::Refused(fault)) => say_refused(rt, fault),
        Err(Unsound::Otherwise) => println!(rt; "rewritten otherwise"),
        Err(Unsound::NoMemory(error)) => Err(error.into()),
    }
}
