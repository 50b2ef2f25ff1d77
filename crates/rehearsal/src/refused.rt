// Every refusal of every call, in dial numbers, on a plan two of three; the last round on one harbour alone.
ghost use Rattle.std.specs.Prelude.{◌≡◌, true, false, codes};

use crate::answer::{Answer, print_answer};
use crate::calls;
use crate::kept::Desk;
use crate::rounds::{Lent, plan_of};
use crate::trial::{Trial, try_call, try_deal, try_note, try_while_drawn};
use kinds::dial_number::DialNumber;
use kinds::element::Element;
use plans::plan::Plan;
use std::io;
use trays::record::Record;
use trays::record::deal::deal;
use trays::refusal::Refusal;

// The key, the random elements of a deal and those of a draw.
pub(crate) const KEY: [DialNumber; 1] = [DialNumber { held: 1234 }];

pub(crate) const RANDOM: [DialNumber; 3] = [
    DialNumber { held: 9000 },
    DialNumber { held: 500 },
    DialNumber { held: 0 },
];

pub(crate) const MORE: [DialNumber; 3] = [
    DialNumber { held: 1 },
    DialNumber { held: 2 },
    DialNumber { held: 3 },
];

const EMPTY: [DialNumber; 6] = [DialNumber { held: 0 }; 6];

// A place of a tray that nothing is dealt onto.
const UNDEALT: DialNumber = DialNumber { held: 77 };

// What is said of the places.
fn places(unaltered: bool) -> &'static str
    ensures same { unaltered ≡ true → result.now ≡ codes "places as they were" }
    ensures other { unaltered ≡ false → result.now ≡ codes "places altered" }
{
    if unaltered {
        "places as they were"
    } else {
        "places altered"
    }
}

// Prints a trial.
fn print_trial(rt: &HostRuntime, what: &str, trial: Trial) -> io::Result<()> {
    let places = places(trial.unaltered);
    match trial.answer {
        Ok(answer) => println!(rt; "{what}: {answer}; {places}"),
        Err(refusal) => println!(rt; "{what}: {refusal}; {places}"),
    }
}

// Prints a trial that begins with a draw, or why there was no draw.
fn print_tried(rt: &HostRuntime, what: &str, tried: Result<Trial, Refusal>) -> io::Result<()> {
    match tried {
        Ok(trial) => print_trial(rt, what, trial),
        Err(refusal) => println!(rt; "{what}: no draw: {refusal}"),
    }
}

// A desk with a key dealt onto its tray.
fn dealt(plan: Plan, issue: u32) -> Result<Desk, Refusal> {
    let mut tray = EMPTY;
    let book = deal(plan, issue, &KEY, &RANDOM, &mut tray)?;
    Ok(Desk {
        book,
        tray,
        sheet: EMPTY,
    })
}

// Deals, refused.
fn print_deals(rt: &HostRuntime, plan: Plan) -> io::Result<()> {
    print_trial(
        rt,
        "deal with a key of 2",
        try_deal(plan, &MORE[..2], &RANDOM, [UNDEALT; 6]),
    )?;
    print_trial(
        rt,
        "deal with 2 random elements",
        try_deal(plan, &KEY, &RANDOM[..2], [UNDEALT; 6]),
    )?;
    print_trial(
        rt,
        "deal onto a tray of 5",
        try_deal(plan, &KEY, &RANDOM, [UNDEALT; 5]),
    )
}

// Draws that are refused, all but the one in the last round.
fn print_draws(rt: &HostRuntime, desk: &mut Desk) -> io::Result<()> {
    print_tried(
        rt,
        "draw while a draw is open",
        try_while_drawn(desk, &MORE, |desk| {
            Ok(try_call(desk, |desk| {
                calls::draw(&mut desk.book, &MORE, &mut desk.sheet)
            }))
        }),
    )?;
    print_trial(
        rt,
        "draw with 2 random elements",
        try_call(desk, |desk| {
            calls::draw(&mut desk.book, &MORE[..2], &mut desk.sheet)
        }),
    )?;
    print_trial(
        rt,
        "draw onto a sheet of 5",
        try_call(desk, |desk| {
            calls::draw(&mut desk.book, &MORE, &mut desk.sheet[0..5])
        }),
    )
}

// Applies, refused. The other desk goes on to a round of its own for the last.
fn print_applies(rt: &HostRuntime, home: &mut Desk, away: &mut Desk) -> io::Result<()> {
    print_tried(
        rt,
        "apply to a tray of 5",
        try_note(home, away, &MORE, |home, _, note| {
            calls::apply(&mut home.book, note, &mut home.tray[0..5], &mut home.sheet)
        }),
    )?;
    print_tried(
        rt,
        "apply with a sheet of 5",
        try_note(home, away, &MORE, |home, _, note| {
            calls::apply(&mut home.book, note, &mut home.tray, &mut home.sheet[0..5])
        }),
    )?;
    print_tried(
        rt,
        "apply with no draw open",
        try_note(away, home, &MORE, |_, home, note| {
            calls::apply(&mut home.book, note, &mut home.tray, &mut home.sheet)
        }),
    )?;
    let mut lent = Lent {
        book: &mut away.book,
        tray: &mut away.tray,
        sheet: &mut away.sheet,
    };
    match lent.renew(&MORE) {
        Ok(_) => print_tried(
            rt,
            "apply with a note of another round",
            try_while_drawn(away, &MORE, |away| {
                try_note(home, away, &MORE, |_, away, note| {
                    calls::apply(&mut away.book, note, &mut away.tray, &mut away.sheet)
                })
            }),
        ),
        Err(refusal) => println!(rt; "{refusal}"),
    }
}

// A discard that is refused, and one that is stale.
fn print_discards(rt: &HostRuntime, home: &mut Desk, away: &mut Desk) -> io::Result<()> {
    print_tried(
        rt,
        "discard with a sheet of 5",
        try_note(home, away, &MORE, |home, _, note| {
            calls::discard(&mut home.book, note, &mut home.sheet[0..5])
        }),
    )?;
    print_tried(
        rt,
        "discard with a note of another record",
        try_note(away, home, &MORE, |_, home, note| {
            calls::discard(&mut home.book, note, &mut home.sheet)
        }),
    )
}

// Readings, refused.
fn print_readings(rt: &HostRuntime, desk: &mut Desk) -> io::Result<()> {
    print_trial(
        rt,
        "read a tray of 5",
        try_call(desk, |desk| calls::read(&desk.book, &desk.tray[..5], 1)),
    )?;
    print_trial(
        rt,
        "read harbour 0",
        try_call(desk, |desk| calls::read(&desk.book, &desk.tray, 0)),
    )?;
    print_trial(
        rt,
        "read harbour 4",
        try_call(desk, |desk| calls::read(&desk.book, &desk.tray, 4)),
    )
}

// Audits: refused, and of a spoilt slip.
fn print_audits(rt: &HostRuntime, desk: &mut Desk) -> io::Result<()> {
    print_trial(
        rt,
        "audit a tray of 5",
        try_call(desk, |desk| calls::audit(&desk.book, &desk.tray[..5])),
    )?;
    print_trial(
        rt,
        "audit",
        try_call(desk, |desk| calls::audit(&desk.book, &desk.tray)),
    )?;
    desk.tray[5] = desk.tray[5].sum(&DialNumber { held: 1 });
    print_trial(
        rt,
        "audit with the last slip spoilt",
        try_call(desk, |desk| calls::audit(&desk.book, &desk.tray)),
    )
}

// Every call on two desks.
fn print_calls(rt: &HostRuntime, home: &mut Desk, away: &mut Desk) -> io::Result<()> {
    print_draws(rt, home)?;
    print_applies(rt, home, away)?;
    print_discards(rt, home, away)?;
    print_readings(rt, home)?;
    print_audits(rt, home)
}

// Renews up to the last round but one, and once more into the last; answers the round that the last note bore.
fn renew_to_last(lent: &mut Lent<DialNumber>) -> Result<u16, Refusal> {
    lent.renew_times(&[], 65_534)?;
    lent.renew(&[])
}

// The last round: one place, and a draw in round 65534 and in round 65535.
fn print_last_round(
    rt: &HostRuntime,
    mut book: Record,
    mut tray: [DialNumber; 6],
) -> io::Result<()> {
    let mut sheet = EMPTY;
    let mut lent = Lent {
        book: &mut book,
        tray: &mut tray[0..1],
        sheet: &mut sheet[0..1],
    };
    let renewed = renew_to_last(&mut lent).map(Answer::Noted);
    print_answer(rt, "draw and apply", renewed)?;
    let round = book.round();
    println!(rt; "round: {round}")?;
    print_trial(
        rt,
        "draw in the last round",
        try_call(&mut Desk { book, tray, sheet }, |desk| {
            calls::draw(&mut desk.book, &[], &mut desk.sheet[0..1])
        }),
    )
}

// Two desks with the key dealt onto their trays, under two issue numbers.
fn dealt_twice(plan: Plan) -> Result<(Desk, Desk), Refusal> {
    Ok((dealt(plan, 10)?, dealt(plan, 11)?))
}

// Deals for the calls that want a record, and makes them.
fn print_desks(rt: &HostRuntime, plan: Plan) -> io::Result<()> {
    match dealt_twice(plan) {
        Ok((mut home, mut away)) => print_calls(rt, &mut home, &mut away),
        Err(refusal) => println!(rt; "{refusal}"),
    }
}

// Deals onto one place for the last round, and comes to it.
fn print_last(rt: &HostRuntime, plan: Plan) -> io::Result<()> {
    let mut tray = EMPTY;
    match deal(plan, 12, &KEY, &[], &mut tray[0..1]) {
        Ok(book) => print_last_round(rt, book, tray),
        Err(refusal) => println!(rt; "{refusal}"),
    }
}

// Prints every refusal.
pub(crate) fn print_refusals(rt: &HostRuntime) -> io::Result<()> {
    let plan = plan_of(3, 2, 1);
    print_deals(rt, plan)?;
    print_desks(rt, plan)?;
    print_last(rt, plan_of(1, 1, 1))
}
