//! What the parser keeps between two terminal symbols, as plain values: the forms that are open, what may come next, and the nodes
//! of the tree in postfix order; the lists that hold them, and the operators among them. In `specs/`, the recogniser that reads a
//! source a terminal symbol at a time, and the nodes of a tree.
#![tactic(auto)]

pub mod forms;
pub mod modes;
pub mod nodes;
pub mod operators;
pub mod stack;
