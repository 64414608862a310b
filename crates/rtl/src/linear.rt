//! Functions as lists of items, and programs of them.

use crate::locations::Place;
use crate::operations::ByteOp;
use crate::sequence::Sequence;
use cerco_base::{Label, StartBytes};

/// An item of linear code. Items are gone through one after the other. Nodes and functions are
/// named by their numbers.
#[derive(Drop)]
pub enum LinItem {
    /// The place of this node.
    Here(u32),
    /// An operation.
    Op(ByteOp<Place>),
    /// A label is passed.
    Label(Label),
    /// To the place of this node.
    Jump(u32),
    /// To the place of this node, where the location doesn't hold 0.
    Test(Place, u32),
    /// A call of this function.
    Call(u32),
    /// The end of the function.
    Return,
}

/// A function: a list of items, which begins at its front.
pub type Lin = Sequence<LinItem>;

/// A list of functions.
pub type Lins = Sequence<Lin>;

/// A program: its functions by number, the number of `main`, and the bytes that external RAM holds
/// at the start, with their addresses.
#[derive(Drop)]
pub struct LinProgram {
    pub lins: Lins,
    pub main: u32,
    pub start: StartBytes,
}
