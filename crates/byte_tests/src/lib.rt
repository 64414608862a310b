//! Tests of operations on words: the byte operations that they become, made on bytes one after the other.
#![tactic(auto)]

#[cfg(test)]
mod bytes;
pub mod machine;
#[cfg(test)]
mod operators;
pub mod results;
