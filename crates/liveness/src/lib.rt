//! What is live at each point of an ERTL graph: virtual registers and the carry that a path uses
//! before it writes them.
#![tactic(auto)]

mod exits;
pub mod flow;
pub mod occurrences;
pub mod points;
pub mod reach;
mod sets;
pub mod storages;
pub mod ways;
mod written;

pub use sets::live;
