// The room of each queue: the most tokens that it holds while the lists of a plan are fired.
#![tactic(auto)]

mod fill;
mod lift;
mod room;

pub use room::rooms;
