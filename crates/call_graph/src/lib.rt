//! The calls of a program: their order, cycles, and the largest sums along call paths.
#![tactic(auto)]

mod cycles;
pub mod faults;
pub mod graph;
mod nodes;
pub mod sums;
mod walk;

pub use faults::OrderFault;
pub use graph::CallGraph;
pub use sums::{Sums, largest_sums};
