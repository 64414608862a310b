//! ERTL without the operations that nothing needs (A. W. Appel, Modern Compiler Implementation,
//! chapters 10 and 19): those that only write what no needed operation and no exit uses.
#![tactic(auto)]

mod deeds;
mod marks;
mod needs;
mod programs;
mod selecting;
mod turns;

pub use programs::{drop_dead, drop_dead_program};
