// What follows from a retiming: back, and the firings of the start list.
#![tactic(auto)]

mod back;

pub use back::{add, back_of, start_firings};
