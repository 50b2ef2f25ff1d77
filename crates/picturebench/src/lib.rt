// For the benchmark: checks, loads and writes pictures of cards with 1,008 slips, the most that a card has.
#![tactic(auto)]

pub mod exported;
mod work;
