// Trials: a call, what is seen of it, and whether it left everything on the desks as it was.
ghost use Rattle.trays.specs.Turns.{told_by};
ghost use Rattle.rehearsal.specs.Rounds.{SameTray};
ghost use Rattle.rehearsal.specs.Trials.{KeepsTray, KeepsTrays};

use crate::answer::Answer;
use crate::kept::{Desk, Kept, same_codes};
use crate::rounds::{spend, spend_returned};
use kinds::dial_number::DialNumber;
use plans::plan::Plan;
use trays::note::{Note, Returned};
use trays::record::deal::deal;
use trays::refusal::Refusal;

// What is seen of a call, and whether nothing was altered.
#[derive(Clone, Copy)]
pub struct Trial {
    pub answer: Result<Answer, Refusal>,
    pub unaltered: bool,
}

// Deals onto a tray.
pub(crate) fn try_deal<const PLACES: usize>(
    plan: Plan,
    key: &[DialNumber],
    random: &[DialNumber],
    mut tray: [DialNumber; PLACES],
) -> Trial {
    let kept = tray;
    let answer = deal(plan, 1, key, random, &mut tray).map(|_| Answer::Dealt);
    Trial {
        answer,
        unaltered: same_codes(&kept, &tray),
    }
}

// Makes a call at a desk.
pub(crate) fn try_call<F: FnOnce(&mut Desk) -> Result<Answer, Refusal>>(
    desk: &mut Desk,
    call: F,
) -> Trial
    requires callable { F.IsAlwaysCallable call }
    requires keeps { KeepsTray F.FnOnce call }
    ensures { SameTray (told_by desk.old.book) (told_by desk.new.book) }
{
    let kept = Kept::of(desk);
    let answer = call(desk);
    Trial {
        answer,
        unaltered: kept.is_still(desk),
    }
}

// Draws at a desk, goes on while the draw is open, and then discards it.
pub(crate) fn try_while_drawn<F: FnOnce(&mut Desk) -> Result<Trial, Refusal>>(
    desk: &mut Desk,
    random: &[DialNumber],
    go_on: F,
) -> Result<Trial, Refusal>
    requires callable { F.IsAlwaysCallable go_on }
    requires keeps { KeepsTray F.FnOnce go_on }
{
    let note = desk.book.draw(random, &mut desk.sheet)?;
    let trial = go_on(desk);
    spend(&mut desk.book, note, &mut desk.sheet);
    trial
}

// Draws at one desk, and makes a call there or at the other with the note. A note that comes back is discarded where it was drawn.
pub(crate) fn try_note<F: FnOnce(&mut Desk, &mut Desk, Note) -> Result<Answer, Returned>>(
    home: &mut Desk,
    away: &mut Desk,
    random: &[DialNumber],
    call: F,
) -> Result<Trial, Refusal>
    requires callable { F.IsAlwaysCallable call }
    requires keeps { KeepsTrays F.FnOnce call }
    ensures { SameTray (told_by away.old.book) (told_by away.new.book) }
{
    let note = home.book.draw(random, &mut home.sheet)?;
    let (at_home, elsewhere) = (Kept::of(home), Kept::of(away));
    let called = call(home, away, note);
    let unaltered = at_home.is_still(home) && elsewhere.is_still(away);
    // Kept: in a closure of `map_err` it is not known that the record still has a tray of six places.
    let answer = match called {
        Ok(answer) => Ok(answer),
        Err(returned) => Err(spend_returned(&mut home.book, returned, &mut home.sheet)),
    };
    Ok(Trial { answer, unaltered })
}
