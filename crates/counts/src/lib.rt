// Whether the stations are joined, and their smallest counts: refusal 6, and what 7 goes by.
#![tactic(auto)]

mod joining;
mod raising;

pub use joining::{joined, lowest_crossing};
pub use raising::counts;

// A queue, and the station at one of its ends.
#[derive(Drop)]
pub struct Crossing {
    pub queue: usize,
    pub station: usize,
}

// The smallest counts q and their sum. A column of a fixed length: there is no heap.
#[derive(Drop)]
pub struct Counted {
    pub total: usize,
    pub q: [u32; 32],
}
