// Trays: dealing a key onto cards, renewing them in rounds, reading and auditing them, for every kind of element.
#![tactic(auto)]

pub mod answer;
mod dealing;
pub mod note;
pub mod record;
pub mod refusal;
mod slips;
mod tray;
