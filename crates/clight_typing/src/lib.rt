//! What the names of a program mean, and whether its types are right.
#![tactic(auto)]

pub mod blocks;
pub mod bodies;
pub mod calls;
pub mod declarations;
pub mod expressions;
pub mod files;
pub mod functions;
pub mod globals;
pub mod headers;
pub mod laws;
pub mod locals;
pub mod loops;
pub mod programs;
pub mod scope;
pub mod statements;
pub mod taken;
