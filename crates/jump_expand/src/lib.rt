//! From an assembly program to its object: each jump gets the shortest form that reaches its target, found by branch relaxation, and
//! then come the code and the addresses of the labels.
#![tactic(auto)]

pub mod addresses;
pub mod emission;
pub mod expansion;
mod items;
mod rounds;
mod targets;

pub use emission::{Object, emit};
pub use expansion::expand;
