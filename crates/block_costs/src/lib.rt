//! The costs of object code: how many cycles the machine takes from an address to the next label.
#![tactic(auto)]

mod code;
pub mod costs;
pub mod faults;
pub mod laws;
pub mod marks;
mod walks;

pub use costs::{cost_of, start_cost};
pub use faults::CostFault;
pub use marks::Marks;
