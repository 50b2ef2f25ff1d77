// A tray on the desk with its sheet and its record, and what they were before a call.
ghost use Rattle.std.specs.Prelude.{◌≡◌, T, ◌↔◌, map};
ghost use Rattle.rehearsal.specs.Desks.{Keeps, Still, Tells};

use kinds::card::Card;
use kinds::dial_number::DialNumber;
use trays::record::Record;

// A tray of six places in dial numbers, with its sheet and its record.
// Kept: its places are arrays, since what lay on it is copied beside it, in fixed memory.
#[derive(Drop)]
pub struct Desk {
    pub book: Record,
    pub tray: [DialNumber; 6],
    pub sheet: [DialNumber; 6],
}

// What a record tells: its issue number, its round, and whether a draw is open.
#[derive(Clone, Copy, PartialEq, Eq)]
struct Entry {
    issue: u32,
    round: u16,
    drawn: bool,
}

// What lay on a desk.
#[derive(Clone, Copy)]
pub struct Kept {
    entry: Entry,
    tray: [DialNumber; 6],
    sheet: [DialNumber; 6],
}

// Whether two rows of elements have the same codes, one by one.
pub(crate) fn same_codes<C: Card>(these: &[C], those: &[C]) -> bool
    ensures { T result ↔ (map C.Card.coded these.now ≡ map C.Card.coded those.now) }
{
    let codes = these.iter().map(|this| this.code());
    let others = those.iter().map(|that| that.code());
    // Kept: with `eq` of the two chains the proof did not close.
    these.len() == those.len() && codes.zip(others).all(|(code, other)| code == other)
}

impl Entry {
    // What a record tells now.
    fn of(book: &Record) -> Entry
        ensures { Tells book.now result }
    {
        Entry {
            issue: book.issue(),
            round: book.round(),
            drawn: book.is_drawn(),
        }
    }
}

impl Kept {
    // What lies on a desk now.
    pub(crate) fn of(desk: &Desk) -> Kept
        ensures { Keeps desk.now result }
    {
        Kept {
            entry: Entry::of(&desk.book),
            tray: desk.tray,
            sheet: desk.sheet,
        }
    }

    // Whether the record tells the same and every place has the same code.
    pub(crate) fn is_still(&self, desk: &Desk) -> bool
        ensures { T result ↔ Still self.now desk.now }
    {
        self.entry == Entry::of(&desk.book)
            && same_codes(&self.tray, &desk.tray)
            && same_codes(&self.sheet, &desk.sheet)
    }
}
