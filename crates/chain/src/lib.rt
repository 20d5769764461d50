// The chain that the planner's routines are lent, and a quotient that rounds up.
#![tactic(auto)]

mod chain;
mod columns;
mod dividing;
mod round;
mod thread;

pub use chain::Chain;
pub use columns::{widen, widened};
pub use dividing::rounded_up;
pub use round::{Round, bases};
pub use thread::{Threaded, threads};
