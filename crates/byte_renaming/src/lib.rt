//! Graphs of byte operations under other names for their locations, and a copy of what a program
//! keeps beside them.
#![tactic(auto)]

ghost use Rattle.std.specs.Prelude.{◌≡◌, map, IfOk};
ghost use Rattle.rtl.specs.Graphs.{renamed_operand, renamed_op, renamed_exit, renamed_node, renamed_graph};
ghost use Rattle.rtl.specs.Code.Views.{op_of, node_of, graph_of};

use cerco_base::{NoMemory, StartBytes};
use rtl::{ByteOp, Exit, Graph, Graphs, Location, Node, Nodes, Ops, Sequence, Src};
use smallvec::SmallVec;
use std::alloc::Global;

/// Other names for locations.
pub trait Naming<L, M> {
    /// The name of each location.
    ghost named: { Self → L → M };

    /// The name of a location.
    fn name(&self, location: L) -> M
        ensures { result ≡ named self.now location };
}

// The new names of these locations, in their order.
fn rename_each<L: Location, M: Location + Default, N: Naming<L, M>>(
    alloc: Global,
    names: &N,
    locations: &[L],
) -> Result<SmallVec<M, 4, Global>, NoMemory>
    ensures { IfOk result (λ renamed. renamed.items ≡ map (N.named names.now) locations.now) }
{
    let mut renamed = SmallVec::new(alloc);
    for location in locations {
        renamed.push(names.name(*location))?;
    }
    Ok(renamed)
}

// The operand under new names.
fn rename_operand<L: Location, M: Location + Default, N: Naming<L, M>>(
    names: &N,
    operand: Src<L>,
) -> Src<M>
    ensures { result ≡ renamed_operand (N.named names.now) operand }
{
    match operand {
        Src::At(location) => Src::At(names.name(location)),
        Src::Byte(byte) => Src::Byte(byte),
    }
}

/// The operation under new names.
pub fn rename_op<L: Location, M: Location + Default, N: Naming<L, M>>(
    alloc: Global,
    names: &N,
    op: &ByteOp<L>,
) -> Result<ByteOp<M>, NoMemory>
    ensures { IfOk result (λ renamed. op_of renamed ≡ renamed_op (N.named names.now) (op_of op.now)) }
{
    match op {
        ByteOp::Const(d, n) => Ok(ByteOp::Const(names.name(*d), *n)),
        ByteOp::Move(d, s) => Ok(ByteOp::Move(names.name(*d), names.name(*s))),
        ByteOp::Op(o, d, a, b) => {
            let a = rename_operand(names, *a);
            Ok(ByteOp::Op(*o, names.name(*d), a, rename_operand(names, *b)))
        }
        ByteOp::Mul(l, h, a, b) => {
            let a = rename_operand(names, *a);
            let b = rename_operand(names, *b);
            Ok(ByteOp::Mul(names.name(*l), names.name(*h), a, b))
        }
        ByteOp::Div(d, a, b) => { Ok(ByteOp::Div(names.name(*d), names.name(*a), names.name(*b))) }
        ByteOp::Rem(d, a, b) => { Ok(ByteOp::Rem(names.name(*d), names.name(*a), names.name(*b))) }
        ByteOp::Rlc(d, a) => Ok(ByteOp::Rlc(names.name(*d), names.name(*a))),
        ByteOp::Rrc(d, a) => Ok(ByteOp::Rrc(names.name(*d), names.name(*a))),
        ByteOp::Top(a) => Ok(ByteOp::Top(names.name(*a))),
        ByteOp::ClearCarry => Ok(ByteOp::ClearCarry),
        ByteOp::SetCarry => Ok(ByteOp::SetCarry),
        ByteOp::FlipCarry => Ok(ByteOp::FlipCarry),
        ByteOp::FromCarry(d) => Ok(ByteOp::FromCarry(names.name(*d))),
        ByteOp::Load(ds, l, h) => {
            let ds = rename_each(alloc, names, ds.as_slice())?;
            Ok(ByteOp::Load(ds, names.name(*l), names.name(*h)))
        }
        ByteOp::Store(l, h, ss) => {
            let ss = rename_each(alloc, names, ss.as_slice())?;
            Ok(ByteOp::Store(names.name(*l), names.name(*h), ss))
        }
        ByteOp::ReadPort(d) => Ok(ByteOp::ReadPort(names.name(*d))),
        ByteOp::WritePort(s) => Ok(ByteOp::WritePort(names.name(*s))),
    }
}

// The exit under new names.
fn rename_exit<L: Location, M: Location + Default, N: Naming<L, M>>(
    names: &N,
    exit: Exit<L>,
) -> Exit<M>
    ensures { result ≡ renamed_exit (N.named names.now) exit }
{
    match exit {
        Exit::Next(next) => Exit::Next(next),
        Exit::Test(a, true_arm, false_arm) => Exit::Test(names.name(a), true_arm, false_arm),
        Exit::Call(function, next) => Exit::Call(function, next),
        Exit::Label(label, next) => Exit::Label(label, next),
        Exit::Return => Exit::Return,
    }
}

// The operations under new names.
fn rename_ops<L: Location, M: Location + Default, N: Naming<L, M>>(
    alloc: Global,
    names: &N,
    ops: &[ByteOp<L>],
) -> Result<Ops<M>, NoMemory>
    ensures { IfOk result (λ renamed. map op_of renamed ≡ map (renamed_op (N.named names.now)) (map op_of ops.now)) }
{
    let mut renamed = Sequence::new(alloc);
    for op in ops {
        renamed.push(rename_op(alloc, names, op)?)?;
    }
    Ok(renamed)
}

// The node under new names.
fn rename_node<L: Location, M: Location + Default, N: Naming<L, M>>(
    alloc: Global,
    names: &N,
    node: &Node<L>,
) -> Result<Node<M>, NoMemory>
    ensures { IfOk result (λ renamed. node_of renamed ≡ renamed_node (N.named names.now) (node_of node.now)) }
{
    let ops = rename_ops(alloc, names, node.ops.as_slice())?;
    Ok(Node {
        ops,
        exit: rename_exit(names, node.exit),
    })
}

// The nodes under new names.
fn rename_nodes<L: Location, M: Location + Default, N: Naming<L, M>>(
    alloc: Global,
    names: &N,
    nodes: &[Node<L>],
) -> Result<Nodes<M>, NoMemory>
    ensures { IfOk result (λ renamed. map node_of renamed ≡ map (renamed_node (N.named names.now)) (map node_of nodes.now)) }
{
    let mut renamed = Sequence::new(alloc);
    for node in nodes {
        renamed.push(rename_node(alloc, names, node)?)?;
    }
    Ok(renamed)
}

/// The graph under new names: the same entry, and each node with its number, its operations and its
/// exit.
pub fn rename_graph<L: Location, M: Location + Default, N: Naming<L, M>>(
    alloc: Global,
    names: &N,
    graph: &Graph<L>,
) -> Result<Graph<M>, NoMemory>
    ensures { IfOk result (λ renamed. graph_of renamed ≡ renamed_graph (N.named names.now) (graph_of graph.now)) }
{
    let nodes = rename_nodes(alloc, names, graph.nodes.as_slice())?;
    Ok(Graph {
        entry: graph.entry,
        nodes,
    })
}

/// Graphs under new names, in their order.
pub fn rename_graphs<L: Location, M: Location + Default, N: Naming<L, M>>(
    alloc: Global,
    names: &N,
    graphs: &[Graph<L>],
) -> Result<Graphs<M>, NoMemory>
    ensures { IfOk result (λ renamed. map graph_of renamed ≡ map (renamed_graph (N.named names.now)) (map graph_of graphs.now)) }
{
    let mut renamed = Sequence::new(alloc);
    for graph in graphs {
        renamed.push(rename_graph(alloc, names, graph)?)?;
    }
    Ok(renamed)
}

/// A copy of the bytes that the start writes.
pub fn copy_start(alloc: Global, start: &StartBytes) -> Result<StartBytes, NoMemory>
    ensures { IfOk result (λ copy. copy ≡ start.now) }
{
    let mut copy = StartBytes::new(alloc);
    for &(at, byte) in start.bytes() {
        copy.push(at, byte)?;
    }
    Ok(copy)
}
