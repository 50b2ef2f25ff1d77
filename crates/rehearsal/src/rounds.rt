// Rounds: a draw whose note is spent, by an apply or a discard.
ghost use Rattle.std.specs.Prelude.{◌≡◌, ◌+◌, length, Ok, MatchResult, OnOk};
ghost use Rattle.plans.specs.Refusals.{plan_refusal};
ghost use Rattle.sharing.specs.Calls.{draw, refusal};
ghost use Rattle.trays.specs.Turns.{DiscardTurns, told_by};
ghost use Rattle.rehearsal.specs.Rounds.{Asked, Fits, Renews, StillLends, TurnedBack, Withdrawn};

use kinds::element::Element;
use plans::plan::Plan;
use trays::answer::Discarded;
use trays::note::{Note, Returned};
use trays::record::Record;
use trays::refusal::Refusal;

// A record that is lent with its tray and its sheet.
#[derive(Drop)]
pub struct Lent<'a, E> {
    pub book: &'a mut Record,
    pub tray: &'a mut [E],
    pub sheet: &'a mut [E],
}

// The plan with three numbers that make one.
pub(crate) fn plan_of(harbours: usize, threshold: usize, components: usize) -> Plan
    requires { plan_refusal harbours threshold components ≡ 0 }
    ensures { Asked harbours threshold components result }
{
    Plan::new(harbours, threshold, components).unwrap()
}

// Kept: here and in the calls record and sheet come apart, since a trial lends a part of a desk's sheet.

// Spends a note by a discard, with a sheet that is as long as the tray.
pub(crate) fn spend<E: Element>(book: &mut Record, note: Note, sheet: &mut [E]) -> Discarded
    requires { Fits book.old (length sheet.old) }
    ensures { DiscardTurns E.Element.group E.Element.meaning (told_by book.old) note sheet.old (told_by book.new) sheet.new (Ok result) }
{
    book.discard(note, sheet).unwrap()
}

// Spends a note that came back, and tells why it did.
pub(crate) fn spend_returned<E: Element>(
    book: &mut Record,
    returned: Returned,
    sheet: &mut [E],
) -> Refusal
    requires { Fits book.old (length sheet.old) }
    ensures why { result ≡ returned.refusal }
    ensures turns { (answer : Discarded) × DiscardTurns E.Element.group E.Element.meaning (told_by book.old) returned.note sheet.old (told_by book.new) sheet.new (Ok answer) }
{
    let Returned { refusal, note } = returned;
    spend(book, note, sheet);
    refusal
}

// Draws and discards; answers the round that the note bore, and what became of the draw.
pub(crate) fn withdraw<E: Element>(
    book: &mut Record,
    random: &[E],
    sheet: &mut [E],
) -> Result<(u16, Discarded), Refusal>
    ensures { MatchResult result (λ p. Withdrawn E.Element.group E.Element.meaning (told_by book.old) sheet.old (told_by book.new) sheet.new p.0 p.1) (λ e. TurnedBack (told_by book.old) (told_by book.new) (refusal 0 (told_by book.old) (draw (length random.now) (length sheet.old))) e) }
{
    let note = book.draw(random, sheet)?;
    let bore = note.round();
    Ok((bore, spend(book, note, sheet)))
}

impl<E: Element> Lent<'_, E> {
    // Draws and applies; answers the round that the note bore. A note that comes back is spent.
    pub(crate) fn renew(&mut self, random: &[E]) -> Result<u16, Refusal>
        ensures turns { Renews E.Element.group E.Element.meaning random.now self.old self.new result }
        ensures lends { StillLends self.old self.new }
    {
        let note = self.book.draw(random, self.sheet)?;
        let bore = note.round();
        // Kept: what a closure of `map_err` leaves in the record, no proof knows.
        match self.book.apply(note, self.tray, self.sheet) {
            Ok(()) => Ok(bore),
            Err(returned) => Err(spend_returned(self.book, returned, self.sheet)),
        }
    }

    // Renews so many times; the round is then so much further.
    pub(crate) fn renew_times(&mut self, random: &[E], times: u16) -> Result<(), Refusal>
        ensures round { OnOk result ((told_by self.new.book.now).round ≡ (told_by self.old.book.now).round + times) }
        ensures lends { StillLends self.old self.new }
    {
        for _ in 0..times {
            self.renew(random)?;
        }
        Ok(())
    }
}
