//! Greedy colourings of the virtual registers of a graph, from its live sets.
#![tactic(auto)]

pub mod graphs;
pub mod greedy;
mod marks;
mod nodes;
mod rows;

pub use graphs::colour_graph;
pub use greedy::{Colouring, Row, colour_rows};
