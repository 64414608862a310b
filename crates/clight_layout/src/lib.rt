//! The layout of a program in external RAM: the order of its calls, and where its variables and frames lie.
#![tactic(auto)]

mod calls;
mod graph;
pub mod layout;
pub mod sizes;
mod starts;
mod variables;

pub use layout::lay_out;
