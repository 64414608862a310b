//! Sources of the C profile: the terminal symbols of the grammar, identifiers, and the syntax tree.
#![tactic(auto)]

pub mod names;
pub mod nesting;
pub mod span;
pub mod symbol;
pub mod tree;

pub use names::Names;
pub use nesting::depth;
pub use span::Span;
pub use symbol::{Literal, Radix, Symbol, Terminal};
pub use tree::{Expr, Function, Program, Stmt};
