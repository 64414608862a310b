//! The machine over whole trees, of which the theories of the grammar speak, and its law: the recogniser does the same with postfix
//! nodes.
#![tactic(auto)]

pub mod laws;
