// The library for programs in C and in Rust. Each function is one of the library's, with its contract; include/tasselbrook.h declares them.
#![tactic(auto)]

mod checking;
mod moving;
mod named;
mod planning;
mod reading;
mod told;
mod writing;
