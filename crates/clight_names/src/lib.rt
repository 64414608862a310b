//! The names of a program: where each is declared, and the first that is wrong.
#![tactic(auto)]

mod declarations;
mod expressions;
pub mod judge;
mod kinds;
mod known;
pub mod occurrences;
pub mod regions;
mod statements;

pub use judge::check_names;
pub use kinds::main_name;
