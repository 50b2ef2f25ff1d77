// The calls on a dealt tray, and what each of them answers.
ghost use Rattle.std.specs.Prelude.{◌≡◌};
ghost use Rattle.trays.specs.Turns.{told_by};
ghost use Rattle.rehearsal.specs.Answers.{Audits};
ghost use Rattle.rehearsal.specs.Rounds.{SameTray};

use crate::answer::Answer;
use crate::rounds::withdraw;
use kinds::element::Element;
use trays::note::{Note, Returned};
use trays::record::Record;
use trays::refusal::Refusal;

// Draws, and spends the note at once.
pub(crate) fn draw<E: Element>(
    book: &mut Record,
    random: &[E],
    sheet: &mut [E],
) -> Result<Answer, Refusal>
    ensures { SameTray (told_by book.old) (told_by book.new) }
{
    withdraw(book, random, sheet).map(|(round, _)| Answer::Noted(round))
}

// Applies, with a note.
pub(crate) fn apply<E: Element>(
    book: &mut Record,
    note: Note,
    tray: &mut [E],
    sheet: &mut [E],
) -> Result<Answer, Returned>
    ensures { SameTray (told_by book.old) (told_by book.new) }
{
    book.apply(note, tray, sheet).map(|()| Answer::Applied)
}

// Discards a note.
pub(crate) fn discard<E: Element>(
    book: &mut Record,
    note: Note,
    sheet: &mut [E],
) -> Result<Answer, Returned>
    ensures { SameTray (told_by book.old) (told_by book.new) }
{
    book.discard(note, sheet).map(Answer::from)
}

// Reads the card of a harbour.
pub(crate) fn read<E: Element>(
    book: &Record,
    tray: &[E],
    harbour: usize,
) -> Result<Answer, Refusal> {
    book.read(tray, harbour)
        .map(|card| Answer::Handed(card.len()))
}

// Audits.
pub(crate) fn audit<E: Element>(book: &Record, tray: &[E]) -> Result<Answer, Refusal>
    ensures { Audits E.Element.group E.Element.meaning (told_by book.now) tray.now result }
{
    book.audit(tray).map(Answer::from)
}
