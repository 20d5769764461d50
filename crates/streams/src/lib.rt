// What a program has besides its output: standard input, and how it ends.
#![tactic(auto)]

mod ending;
mod input;

pub use ending::{Failure, done, failed, refused};
pub use input::{Unread, fill};
