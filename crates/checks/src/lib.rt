// Checks 1 to 8 with 16 of a sheet's bytes.
#![tactic(auto)]

mod judge;

pub use judge::check;

// What is worked out of a sheet that no check refuses: its target, its tags and times, its chain with the counts, its delays and its round list, which
// stands in as many of the first entries as there are copies: there is no heap. `Ready`, which functions ask of it, is no ghost field: one wants a fact with a single proof, which isn't known
// of a round list.
#[derive(Clone, Copy)]
pub struct Checked {
    pub target: u32,
    pub tag: [u16; 32],
    pub time: [u16; 32],
    pub round: chain::Round,
    pub delay: [u32; 64],
    pub list: [u16; 256],
}
