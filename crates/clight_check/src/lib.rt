//! The checker of the C profile: names, then types, then calls and layout.
#![tactic(auto)]

pub mod checking;
pub mod laws;

pub use checking::check;
