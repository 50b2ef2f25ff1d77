// A ceremony in any kind of element: a deal, a round that is applied, one that is discarded, and an audit.
use crate::answer::{Answer, print_answer};
use crate::calls::audit;
use crate::cards::{Shown, print_cards, print_elements, print_plan, print_record};
use crate::rounds::{Lent, withdraw};
use plans::plan::Plan;
use std::io;
use trays::record::deal::deal;
use trays::refusal::Refusal;

// What a ceremony begins with: a plan, an issue number, a key, and random elements for the deal and for each draw.
#[derive(Clone, Copy)]
pub struct Ceremony<'a, C> {
    pub plan: Plan,
    pub issue: u32,
    pub key: &'a [C],
    pub random: &'a [C],
    pub more: &'a [C],
}

// Prints what goes into a deal.
fn print_deal<C: Shown>(rt: &HostRuntime, ceremony: &Ceremony<C>) -> io::Result<()> {
    let issue = ceremony.issue;
    print_plan::<C>(rt, &ceremony.plan)?;
    print!(rt; "deal: key")?;
    print_elements(rt, ceremony.key)?;
    print!(rt; ", random")?;
    print_elements(rt, ceremony.random)?;
    println!(rt; ", issue {issue}")
}

// Prints a draw, and what spent its note.
fn print_round<C: Shown>(
    rt: &HostRuntime,
    more: &[C],
    call: &str,
    round: Result<(u16, Answer), Refusal>,
) -> io::Result<()> {
    print!(rt; "draw: random")?;
    print_elements(rt, more)?;
    match round {
        Ok((bore, answer)) => {
            println!(rt; ", a note of round {bore}")?;
            println!(rt; "{call}: {answer}")
        }
        Err(refusal) => println!(rt; ", {refusal}"),
    }
}

// Draws and applies, and prints both.
fn print_renewal<C: Shown>(rt: &HostRuntime, lent: &mut Lent<C>, more: &[C]) -> io::Result<()> {
    let renewal = lent.renew(more).map(|bore| (bore, Answer::Applied));
    print_round(rt, more, "apply", renewal)
}

// Draws and discards, and prints both.
fn print_withdrawal<C: Shown>(rt: &HostRuntime, lent: &mut Lent<C>, more: &[C]) -> io::Result<()> {
    let withdrawal = withdraw(lent.book, more, lent.sheet).map(|(bore, discarded)| (
        bore,
        Answer::from(discarded),
    ));
    print_round(rt, more, "discard", withdrawal)
}

// Audits, and prints what is found.
fn print_audit<C: Shown>(rt: &HostRuntime, lent: &Lent<C>) -> io::Result<()> {
    print_answer(rt, "audit", audit(lent.book, lent.tray))
}

// Goes on from a deal.
fn print_rounds<C: Shown>(rt: &HostRuntime, lent: &mut Lent<C>, more: &[C]) -> io::Result<()> {
    print_cards(rt, lent)?;
    print_renewal(rt, lent, more)?;
    print_cards(rt, lent)?;
    print_withdrawal(rt, lent, more)?;
    print_audit(rt, lent)?;
    print_record(rt, lent.book)?;
    println!(rt)
}

// Runs a ceremony, and prints what it did.
pub(crate) fn print_ceremony<C: Shown>(
    rt: &HostRuntime,
    ceremony: &Ceremony<C>,
    tray: &mut [C],
    sheet: &mut [C],
) -> io::Result<()> {
    print_deal(rt, ceremony)?;
    match deal(
        ceremony.plan,
        ceremony.issue,
        ceremony.key,
        ceremony.random,
        tray,
    ) {
        Ok(mut record) => {
            let book = &mut record;
            print_rounds(rt, &mut Lent { book, tray, sheet }, ceremony.more)
        }
        Err(refusal) => println!(rt; "{refusal}"),
    }
}
