// Whole numbers of either sign, and division rounded toward minus infinity.
#![tactic(auto)]

mod floor;
mod parts;
mod range;

pub use floor::{floor_div, floor_mod};
pub use parts::{difference, down, up};
pub use range::in_hand_range;
