//! The fold over all postfix nodes of a program, which builds its items.
#![tactic(auto)]

pub mod build;
pub mod declarations;
pub mod items;
pub mod stacks;
