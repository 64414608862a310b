//! The MCS-51: a machine that runs object code step by step, with its cycles, its ports and the
//! labels that it passes.
#![tactic(auto)]

mod code;
pub mod events;
mod executed;
mod location;
pub mod machine;
mod operations;
mod processor;
mod quiet;
mod slots;

pub use events::{Events, Step};
pub use machine::Machine;
