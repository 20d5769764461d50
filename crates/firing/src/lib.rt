// Firing lists, and the time table of its copies.
#![tactic(auto)]

mod fire;
mod late;
mod scan;
mod times;
mod walk;

pub use fire::fire_list;
pub use late::{late_counts, latest_end};
pub use times::time_table;
