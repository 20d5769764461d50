// The lowest queue that spoils the balance: refusal 16.
#![tactic(auto)]

mod reaching;
mod spoiling;
mod way;

pub use spoiling::spoiled;
