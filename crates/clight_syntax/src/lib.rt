//! Checked programs of the C profile: the tree with types and meanings of names, with or without cost labels, and the
//! places of a source at which annotations stand. The source's own tree is that of `clight_source`, types are those of `c_types`.
#![tactic(auto)]

pub mod literals;
pub mod points;
pub mod typed;
pub mod variables;

pub use c_types::{MemberType, StructType, Ty};
pub use clight_source::{
    Expr, Function, Literal, Names, Program, Radix, Span, Stmt, Symbol, Terminal, depth,
};
pub use literals::literal_type;
pub use points::{Piece, Point, Points};
pub use typed::{Cond, Labelled, Typed, TypedProgram};
