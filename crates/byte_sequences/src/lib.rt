//! What each operation on values of two bytes becomes: a sequence of operations on bytes, over the virtual registers of a call.
#![tactic(auto)]

pub mod arithmetic;
pub mod comparisons;
pub mod moves;
pub mod operations;
pub mod sequence;
pub mod shifts;
pub mod words;

pub use operations::{MOST_NUMBERS, node_of};
pub use words::Word;
