//! The languages of byte operations between 16-bit code and assembly. RTL, ERTL and LTL are graphs
//! of operations on bytes: over virtual registers, over the same with the arguments of calls in
//! their places, and over registers and memory. LIN is linear code over registers and memory. They
//! have one table of operations, and one meaning.
#![tactic(auto)]

pub mod graphs;
pub mod linear;
pub mod live_sets;
pub mod locations;
pub mod operations;
pub mod sequence;

pub use graphs::{Bytes, Exit, Graph, Graphs, Node, Nodes};
pub use linear::{Lin, LinItem, LinProgram, Lins};
pub use live_sets::{LivePoint, LivePoints, LiveSets};
pub use locations::{Location, Place, Vreg};
pub use operations::{Arith, ByteOp, Ops, Src};
pub use sequence::Sequence;
