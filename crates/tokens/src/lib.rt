// The origin of one token.
#![tactic(auto)]

mod told;

pub use told::origin_of;

// An initial token with its place, or a made one with its firing and its place in that firing.
#[derive(Clone, Copy)]
pub enum Origin {
    Initial(u32),
    Made(u32, u32),
}
