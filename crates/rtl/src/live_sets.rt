//! What is live at each point of a graph.
ghost use Rattle.std.specs.Prelude.{◌≡◌};
ghost use Rattle.rtl.specs.LiveSets.{HasPoint, vregs_before, carry_before};

use crate::locations::Vreg;
use crate::sequence::Sequence;

/// What is live at a point: virtual registers by rising number, and perhaps the carry.
#[derive(Drop)]
pub struct LivePoint {
    pub vregs: Sequence<Vreg>,
    pub carry: bool,
}

/// The points of a node: before each of its operations, and before its exit.
pub type LivePoints = Sequence<LivePoint>;

/// What is live in a graph, by node.
#[derive(Drop)]
pub struct LiveSets {
    pub nodes: Sequence<LivePoints>,
}

impl LiveSets {
    /// The virtual registers that are live before this operation of the node, by rising number.
    /// Operations are counted from 0, and the number of them stands for the exit.
    pub fn before(&self, node: u32, op: usize) -> &[Vreg]
        requires { HasPoint self.now node op }
        ensures { result.now ≡ vregs_before self.now node op }
    {
        let points = self.nodes.as_slice()[node as usize].as_slice();
        points[op].vregs.as_slice()
    }

    /// Whether the carry is live there.
    pub fn carry(&self, node: u32, op: usize) -> bool
        requires { HasPoint self.now node op }
        ensures { result ≡ carry_before self.now node op }
    {
        let points = self.nodes.as_slice()[node as usize].as_slice();
        points[op].carry
    }
}
