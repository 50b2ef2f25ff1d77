// Plans: which groups of harbours restore the key, and where each group's slips lie.
#![tactic(auto)]

mod binomial;
pub mod mask;
pub mod plan;
pub mod refusal;
pub mod sign;
pub mod table;
