// Text that is gathered in a page and written a page at a time.
#![tactic(auto)]

mod gathering;

pub use gathering::Page;
