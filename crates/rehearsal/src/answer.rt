// What is seen of a call that is not turned away.
ghost use Rattle.std.specs.Prelude.{◌≡◌};
ghost use Rattle.rehearsal.specs.Answers.{from_audit, from_discard};

use std::{fmt, io};
use trays::answer::Discarded;
use trays::refusal::Refusal;

// The answer of a call.
#[derive(Clone, Copy)]
pub enum Answer {
    // The key is dealt.
    Dealt,
    // A draw is open, and its note bears this round.
    Noted(u16),
    // The sheet is added to the tray.
    Applied,
    // The sheet is wiped.
    Wiped,
    // The note was of no open draw.
    Stale,
    // So many slips are handed out.
    Handed(usize),
    // All groups restore the same.
    Agrees,
    // This group restores otherwise.
    Differs(usize),
}

// What a discard answers.
impl From<Discarded> for Answer {
    ghost from_gives = { λ discarded answer. answer ≡ from_discard discarded };

    fn from(discarded: Discarded) -> Answer {
        match discarded {
            Discarded::Wiped => Answer::Wiped,
            Discarded::Stale => Answer::Stale,
        }
    }
}

// What an audit answers, by the group that restores otherwise, if there is one.
impl From<Option<usize>> for Answer {
    ghost from_gives = { λ group answer. answer ≡ from_audit group };

    fn from(group: Option<usize>) -> Answer {
        match group {
            None => Answer::Agrees,
            Some(number) => Answer::Differs(number),
        }
    }
}

// Kept: by hand, since the one derive that prints makes an error of its type.
impl fmt::Display for Answer {
    fn fmt<W: fmt::Write>(&self, f: &mut fmt::Formatter<W>) -> fmt::Result {
        match self {
            Answer::Dealt => write!(f, "dealt"),
            Answer::Noted(round) => write!(f, "a note of round {round}"),
            Answer::Applied => write!(f, "applied"),
            Answer::Wiped => write!(f, "wiped"),
            Answer::Stale => write!(f, "stale"),
            Answer::Handed(count) => write!(f, "{count} slips"),
            Answer::Agrees => write!(f, "agrees"),
            Answer::Differs(number) => write!(f, "group {number} restores otherwise"),
        }
    }
}

// Prints a call's answer, or its refusal, behind its name.
pub(crate) fn print_answer(
    rt: &HostRuntime,
    what: &str,
    answer: Result<Answer, Refusal>,
) -> io::Result<()> {
    match answer {
        Ok(answer) => println!(rt; "{what}: {answer}"),
        Err(refusal) => println!(rt; "{what}: {refusal}"),
    }
}
