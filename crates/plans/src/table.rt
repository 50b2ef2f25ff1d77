ghost use Rattle.std.specs.Prelude.{◌≡◌, ◌-◌, ◌≤◌, ◌++◌, replicate};
ghost use Rattle.plans.specs.Binomial.{choose};
ghost use Rattle.plans.specs.Groups.{groups};
ghost use Rattle.plans.specs.Triangle.{IsTriangle};

use crate::plan::Plan;

// The groups of a plan: their masks by number, 0 behind them, with the binomial counts from which a mask's number is found.
#[derive(Drop)]
pub struct Table {
    plan: Plan,
    // Kept: the library allocates nothing, so the masks stand in an array, with their count beside it.
    masks: [u16; 252],
    count: usize,
    // As many rows as there are harbours; behind them stand zeros.
    binomials: [[u16; 11]; 10],
    ghost counted: { count ≡ choose plan.harbours plan.threshold },
    ghost few: { count ≤ 252 },
    ghost listed: { masks ≡ groups plan.harbours plan.threshold ++ replicate (252 - count) 0 },
    ghost chosen: { IsTriangle plan.harbours 11 binomials },
}

mod find;
mod make;
mod read;
