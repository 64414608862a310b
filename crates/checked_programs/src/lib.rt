//! A sound program, laid out and labelled, is a checked one and within the compiler's limits: what a compiler needs of it holds. The
//! functions do nothing: their contracts are the laws, which are proved.
#![tactic(auto)]

pub mod laws;
