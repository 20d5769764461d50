// When the planner says no: the refusals, with their numbers, their words and the places that they name.
#![tactic(auto)]

mod refusal;
mod wording;

pub use refusal::Refusal;
pub use wording::{line, word};
