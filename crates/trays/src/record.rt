ghost use Rattle.std.specs.Prelude.{◌≡◌, true, ◌≢◌};

use plans::plan::Plan;

// The record of a tray: its plan, its issue number, its round, and whether a draw is open.
// It comes from a deal alone, and the calls alone alter it. No draw is ever open in the last round.
#[derive(Drop)]
pub struct Record {
    plan: Plan,
    issue: u32,
    round: u16,
    drawn: bool,
    ghost next: { drawn ≡ true → round ≢ 65535 },
}

mod apply;
mod audit;
pub mod deal;
mod discard;
mod draw;
mod read;
mod tell;
