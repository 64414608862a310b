//! The virtual registers that a graph names.
ghost use Rattle.std.specs.Prelude.{◌≡◌, ◌++◌, ◌∷◌, [], map, OnOk, IfOk};
ghost use Rattle.rtl.specs.WellFormed.{gathered, operand_locations, op_locations, exit_locations, node_locations, locations_in};
ghost use Rattle.rtl.specs.Code.Views.{op_of, node_of, graph_of};

use cerco_base::NoMemory;
use rtl::{ByteOp, Exit, Graph, Node, Src, Vreg};
use std::alloc::Global;

// Adds the locations of an operand.
fn add_operand(list: &mut Vec<Vreg>, operand: Src<Vreg>) -> Result<(), NoMemory>
    ensures { OnOk result (list.new.items ≡ list.old.items ++ operand_locations operand) }
{
    match operand {
        Src::At(v) => Ok(list.push(v)?),
        Src::Byte(_) => Ok(()),
    }
}

// Adds these locations and those of two operands.
fn add_with_operands(
    list: &mut Vec<Vreg>,
    first: &[Vreg],
    a: Src<Vreg>,
    b: Src<Vreg>,
) -> Result<(), NoMemory>
    ensures { OnOk result (list.new.items ≡ list.old.items ++ (first.now ++ (operand_locations a ++ operand_locations b))) }
{
    list.extend_from_slice(first)?;
    add_operand(list, a)?;
    add_operand(list, b)
}

// Adds these locations and more.
fn add_both(list: &mut Vec<Vreg>, first: &[Vreg], more: &[Vreg]) -> Result<(), NoMemory>
    ensures { OnOk result (list.new.items ≡ list.old.items ++ (first.now ++ more.now)) }
{
    list.extend_from_slice(first)?;
    Ok(list.extend_from_slice(more)?)
}

// Adds the locations that an operation names.
fn add_op(list: &mut Vec<Vreg>, op: &ByteOp<Vreg>) -> Result<(), NoMemory>
    ensures { OnOk result (list.new.items ≡ list.old.items ++ op_locations (op_of op.now)) }
{
    match op {
        ByteOp::Const(d, _) => add_both(list, &[*d], &[]),
        ByteOp::Move(d, s) => add_both(list, &[*d, *s], &[]),
        ByteOp::Op(_, d, a, b) => add_with_operands(list, &[*d], *a, *b),
        ByteOp::Mul(l, h, a, b) => add_with_operands(list, &[*l, *h], *a, *b),
        ByteOp::Div(d, a, b) => add_both(list, &[*d, *a, *b], &[]),
        ByteOp::Rem(d, a, b) => add_both(list, &[*d, *a, *b], &[]),
        ByteOp::Rlc(d, a) => add_both(list, &[*d, *a], &[]),
        ByteOp::Rrc(d, a) => add_both(list, &[*d, *a], &[]),
        ByteOp::Top(a) => add_both(list, &[*a], &[]),
        ByteOp::ClearCarry => Ok(()),
        ByteOp::SetCarry => Ok(()),
        ByteOp::FlipCarry => Ok(()),
        ByteOp::FromCarry(d) => add_both(list, &[*d], &[]),
        ByteOp::Load(ds, l, h) => add_both(list, &[*l, *h], ds.as_slice()),
        ByteOp::Store(l, h, ss) => add_both(list, &[*l, *h], ss.as_slice()),
        ByteOp::ReadPort(d) => add_both(list, &[*d], &[]),
        ByteOp::WritePort(s) => add_both(list, &[*s], &[]),
    }
}

// Adds the locations that operations name.
fn add_ops(list: &mut Vec<Vreg>, ops: &[ByteOp<Vreg>]) -> Result<(), NoMemory>
    ensures { OnOk result (list.new.items ≡ list.old.items ++ gathered op_locations (map op_of ops.now)) }
{
    for op in ops {
        add_op(list, op)?;
    }
    Ok(())
}

// Adds the location that an exit names.
fn add_exit(list: &mut Vec<Vreg>, exit: Exit<Vreg>) -> Result<(), NoMemory>
    ensures { OnOk result (list.new.items ≡ list.old.items ++ exit_locations exit) }
{
    match exit {
        Exit::Test(v, _, _) => Ok(list.push(v)?),
        _ => Ok(()),
    }
}

// Adds the locations that a node names.
fn add_node(list: &mut Vec<Vreg>, node: &Node<Vreg>) -> Result<(), NoMemory>
    ensures { OnOk result (list.new.items ≡ list.old.items ++ node_locations (node_of node.now)) }
{
    add_ops(list, node.ops.as_slice())?;
    add_exit(list, node.exit)
}

// Adds the locations that nodes name.
fn add_nodes(list: &mut Vec<Vreg>, nodes: &[Node<Vreg>]) -> Result<(), NoMemory>
    ensures { OnOk result (list.new.items ≡ list.old.items ++ gathered node_locations (map node_of nodes.now)) }
{
    for node in nodes {
        add_node(list, node)?;
    }
    Ok(())
}

// The locations that a graph names, as often as it names them.
pub(crate) fn locations(alloc: Global, graph: &Graph<Vreg>) -> Result<Vec<Vreg>, NoMemory>
    ensures { IfOk result (λ list. list.items ≡ locations_in (graph_of graph.now)) }
{
    let mut list = Vec::new(alloc);
    add_nodes(&mut list, graph.nodes.as_slice())?;
    Ok(list)
}
