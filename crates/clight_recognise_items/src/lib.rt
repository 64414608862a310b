//! The recogniser of declarations, and the whole of it.
#![tactic(auto)]

pub mod declarations;
pub mod initialisers;
pub mod recogniser;
