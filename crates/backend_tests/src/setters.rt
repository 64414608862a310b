//! Programs of one function that sets virtual registers.

use cerco_base::{CallOrder, NoMemory, StartBytes};
use rtl::{ByteOp, Bytes, Exit, Graph, Node, Sequence, Vreg};
use std::alloc::Global;

/// The graph of a function that sets these virtual registers.
pub fn graph(alloc: Global, vregs: &[u32]) -> Result<Graph<Vreg>, NoMemory> {
    let mut ops = Sequence::new(alloc);
    for &v in vregs {
        ops.push(ByteOp::Const(Vreg(v), 1))?;
    }
    let mut nodes = Sequence::new(alloc);
    nodes.push(Node {
        ops,
        exit: Exit::Return,
    })?;
    Ok(Graph { entry: 0, nodes })
}

/// The program of that function.
pub fn program(alloc: Global, vregs: &[u32]) -> Result<Bytes<Vreg>, NoMemory> {
    let mut graphs = Sequence::new(alloc);
    graphs.push(graph(alloc, vregs)?)?;
    Ok(Bytes {
        graphs,
        calls: CallOrder::new(alloc),
        main: 0,
        start: StartBytes::new(alloc),
    })
}
