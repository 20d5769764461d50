// The search for the plan's retiming: refusal 9.
#![tactic(auto)]

mod order;
mod raise;
mod rounds;

pub use rounds::search;

// The plan's retiming, with the rounds of the search that raised something, the new delays, their period and their time table,
// in columns of a fixed length: there is no heap.
#[derive(Clone, Copy)]
pub struct Found {
    pub rounds: usize,
    pub period: u32,
    pub retiming: [u32; 32],
    pub delay: [u32; 64],
    pub table: [u32; 256],
}
