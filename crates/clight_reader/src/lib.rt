//! Reads a source: its syntax tree, or why it has none.
#![tactic(auto)]

pub mod laws;
pub mod program;
pub mod reading;

pub use clight_tokens::{Token, TokenList, tokens};
pub use program::parse;
