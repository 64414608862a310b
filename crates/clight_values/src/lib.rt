//! The values of C programs: integers by the bits of their types, pointers, the memory of live blocks, and the operators on them.
#![tactic(auto)]

pub mod globals;
pub mod integer;
pub mod lookup;
pub mod memory;
pub mod operators;
pub mod value;
