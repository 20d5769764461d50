// One move of a copy by a retiming.
#![tactic(auto)]

mod moving;

pub use moving::one_move;

// The copy that a copy moves to, and its shift in rounds.
#[derive(Clone, Copy)]
pub struct Moved {
    pub copy: u32,
    pub shift: i32,
}
