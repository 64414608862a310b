//! The tokens of a source, and what they are to the grammar.
#![tactic(auto)]

pub mod bytes;
pub mod constants;
pub mod lexemes;
pub mod scanner;
pub mod symbols;
pub mod tables;
pub mod token_list;

pub use scanner::{one_answer, tokens};
pub use symbols::{TerminalList, names_have_numbers, terminals};
pub use token_list::{Token, TokenList};
