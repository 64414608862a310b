//! Functions as graphs of nodes, and programs of them.
ghost use Rattle.std.specs.Prelude.{◌≡◌, ⊤};

use crate::locations::Location;
use crate::operations::Ops;
use crate::sequence::Sequence;
use cerco_base::{CallOrder, Label, StartBytes};
use std::alloc::AllocError;

/// How a node is left. Nodes and functions are named by their numbers.
pub enum Exit<L> {
    /// To this node.
    Next(u32),
    /// To the first node where the location doesn't hold 0, else to the second one.
    Test(L, u32, u32),
    /// By a call of this function, and then to this node.
    Call(u32, u32),
    /// Past this label to this node.
    Label(Label, u32),
    /// By the end of the function.
    Return,
}

impl<L: Copy> Clone for Exit<L> {
    ghost is_clone = { λ a b. b ≡ a };

    ghost is_infallible = { λ _. ⊤ };

    fn clone(&self) -> Result<Exit<L>, AllocError> {
        Ok(*self)
    }
}

impl<L: Copy> Copy for Exit<L> {}

/// Operations that are made one after the other, and where to go on then.
#[derive(Drop)]
pub struct Node<L: Location> {
    pub ops: Ops<L>,
    pub exit: Exit<L>,
}

/// A list of nodes.
pub type Nodes<L> = Sequence<Node<L>>;

/// A function: its nodes by number, and the one at which it begins.
#[derive(Drop)]
pub struct Graph<L: Location> {
    pub entry: u32,
    pub nodes: Nodes<L>,
}

/// A list of graphs.
pub type Graphs<L> = Sequence<Graph<L>>;

/// A program: its functions by number, their order of calls, the number of `main`, and the bytes
/// that external RAM holds at the start, with their addresses.
#[derive(Drop)]
pub struct Bytes<L: Location> {
    pub graphs: Graphs<L>,
    pub calls: CallOrder,
    pub main: u32,
    pub start: StartBytes,
}
