//! The recogniser of expressions and statements: it reads terminal symbols one at a time and emits the tree's nodes in postfix order.
//! Forms, modes and nodes are plain values; no tree is held.
#![tactic(auto)]

pub mod closing;
pub mod expressions;
pub mod marks;
pub mod statements;
pub mod words;
