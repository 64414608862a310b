//! The types of the C profile: what declarations give, what expressions have, and what may be assigned to what.
#![tactic(auto)]

pub mod assignable;
pub mod boxes;
pub mod declared;
pub mod judged;
pub mod members;
pub mod names;
pub mod nodes;
pub mod operands;
pub mod parameters;
pub mod places;
pub mod rows;
pub mod structs;
