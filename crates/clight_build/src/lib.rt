//! The fold over the postfix nodes of expressions and statements that builds their trees, in boxes.
#![tactic(auto)]

pub mod expressions;
pub mod fold;
pub mod stacks;
pub mod statements;
