// How elements, cards and records are printed.
ghost use Rattle.std.specs.Prelude.{◌≡◌};
ghost use Rattle.rehearsal.specs.Names.{name_of};

use crate::rounds::Lent;
use kinds::card::Card;
use kinds::dial_number::DialNumber;
use kinds::key_word::KeyWord;
use kinds::mask_byte::MaskByte;
use plans::plan::Plan;
use std::io;
use trays::record::Record;

// A kind that can be shown: it has a name, and its elements are printed.
// Kept: a trait of this program and no Display, since the library prints no element, and a kind's name goes with the printing.
pub trait Shown: Card {
    // The name of the kind.
    fn name() -> &'static str
        ensures { result.now ≡ name_of Self.Card.kind };

    // Prints an element behind a space.
    fn print(&self, rt: &HostRuntime) -> io::Result<()> {
        let code = self.code();
        print!(rt; " {code}")
    }
}

impl Shown for KeyWord {
    fn name() -> &'static str {
        "key words"
    }
}

impl Shown for MaskByte {
    fn name() -> &'static str {
        "mask bytes"
    }

    // Mask bytes are printed in hexadecimal.
    fn print(&self, rt: &HostRuntime) -> io::Result<()> {
        let code = self.code();
        print!(rt; " {code:02X}")
    }
}

impl Shown for DialNumber {
    fn name() -> &'static str {
        "dial numbers"
    }
}

// Prints elements, each behind a space.
pub(crate) fn print_elements<C: Shown>(rt: &HostRuntime, elements: &[C]) -> io::Result<()> {
    for element in elements {
        element.print(rt)?;
    }
    Ok(())
}

// Prints a plan, with the name of the kind.
pub(crate) fn print_plan<C: Shown>(rt: &HostRuntime, plan: &Plan) -> io::Result<()> {
    let name = C::name();
    println!(rt; "plan: {plan}, in {name}")
}

// Prints the card of each harbour, as it is read.
pub(crate) fn print_cards<C: Shown>(rt: &HostRuntime, lent: &Lent<C>) -> io::Result<()> {
    for harbour in 1..=lent.book.plan().harbours() {
        match lent.book.read(lent.tray, harbour) {
            Ok(card) => {
                print!(rt; "card {harbour}:")?;
                print_elements(rt, card)?;
                println!(rt)?;
            }
            Err(refusal) => println!(rt; "card {harbour}: {refusal}")?,
        }
    }
    Ok(())
}

// Prints what a record tells.
pub(crate) fn print_record(rt: &HostRuntime, book: &Record) -> io::Result<()> {
    let issue = book.issue();
    let round = book.round();
    let draw = if book.is_drawn() {
        "a draw is open"
    } else {
        "no draw is open"
    };
    println!(rt; "record: issue {issue}, round {round}, {draw}")
}
