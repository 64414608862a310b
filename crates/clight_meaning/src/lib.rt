//! The meaning of a labelled program, as the definitions of `specs/` give it, and an evaluator that runs a program to its next
//! event.
#![tactic(auto)]

mod beginning;
mod calls;
pub mod evaluator;
pub mod laws;
mod running;
mod state;
mod statements;
pub mod turn;

pub use evaluator::Evaluator;
pub use turn::Turn;
