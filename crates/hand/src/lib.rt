// The check of a retiming that was written by hand.
#![tactic(auto)]

mod shifting;
mod trial;

pub use trial::hand_period;
