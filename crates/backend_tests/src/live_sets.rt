//! What is live in small graphs, by hand.

use cerco_base::NoMemory;
use liveness::live;
use rtl::{Arith, ByteOp, Exit, Graph, LiveSets, Node, Ops, Sequence, Src, Vreg};
use std::alloc::Global;

// A graph of two nodes.
fn graph(alloc: Global, first: Node<Vreg>, second: Node<Vreg>) -> Result<Graph<Vreg>, NoMemory> {
    let mut nodes = Sequence::new(alloc);
    nodes.push(first)?;
    nodes.push(second)?;
    Ok(Graph { entry: 0, nodes })
}

// A sum of two bytes with its carry.
fn sum_ops(alloc: Global) -> Result<Ops<Vreg>, NoMemory> {
    let mut ops = Sequence::new(alloc);
    ops.push(ByteOp::Const(Vreg(24), 1))?;
    ops.push(ByteOp::Const(Vreg(25), 2))?;
    ops.push(ByteOp::Op(Arith::Add, Vreg(26), Src::At(Vreg(24)), Src::At(Vreg(25))))?;
    ops.push(ByteOp::Op(Arith::Addc, Vreg(27), Src::At(Vreg(24)), Src::Byte(0)))?;
    Ok(ops)
}

// One operation that writes the port.
fn shown(alloc: Global, v: u32) -> Result<Ops<Vreg>, NoMemory> {
    let mut ops = Sequence::new(alloc);
    ops.push(ByteOp::WritePort(Vreg(v)))?;
    Ok(ops)
}

fn sum(alloc: Global) -> Result<LiveSets, NoMemory> {
    let first = Node {
        ops: sum_ops(alloc)?,
        exit: Exit::Next(1),
    };
    let second = Node {
        ops: shown(alloc, 27)?,
        exit: Exit::Return,
    };
    let graph = graph(alloc, first, second)?;
    live(alloc, &graph)
}

// What is written before a call: an argument, and a virtual register of the function.
fn call_ops(alloc: Global) -> Result<Ops<Vreg>, NoMemory> {
    let mut ops = Sequence::new(alloc);
    ops.push(ByteOp::Const(Vreg(0), 5))?;
    ops.push(ByteOp::Const(Vreg(24), 7))?;
    Ok(ops)
}

// What is done after it, with its result.
fn after_ops(alloc: Global) -> Result<Ops<Vreg>, NoMemory> {
    let mut ops = Sequence::new(alloc);
    ops.push(ByteOp::Move(Vreg(1), Vreg(2)))?;
    ops.push(ByteOp::WritePort(Vreg(24)))?;
    Ok(ops)
}

fn call(alloc: Global) -> Result<LiveSets, NoMemory> {
    let first = Node {
        ops: call_ops(alloc)?,
        exit: Exit::Call(1, 1),
    };
    let second = Node {
        ops: after_ops(alloc)?,
        exit: Exit::Return,
    };
    let graph = graph(alloc, first, second)?;
    live(alloc, &graph)
}

// Whether the virtual registers that are live at a point have these numbers.
fn are_numbers(found: &[Vreg], numbers: &[u32]) -> bool {
    found.len() == numbers.len() && found.iter().zip(numbers).all(|(v, n)| v.0 == *n)
}

// Whether this is live before that operation of the node, or before its exit.
fn is_live(sets: &LiveSets, node: usize, op: usize, numbers: &[u32], carry: bool) -> bool {
    let Some(points) = sets.nodes.as_slice().get(node) else {
        return false;
    };
    match points.as_slice().get(op) {
        Some(point) => point.carry == carry && are_numbers(point.vregs.as_slice(), numbers),
        None => false,
    }
}

// The carry is live between the bytes of the sum.
fn is_right_for_sum(sets: &LiveSets) -> bool {
    is_live(sets, 0, 0, &[], false)
        && is_live(sets, 0, 1, &[24], false)
        && is_live(sets, 0, 2, &[24, 25], false)
        && is_live(sets, 0, 3, &[24], true)
        && is_live(sets, 0, 4, &[27], false)
        && is_live(sets, 1, 0, &[27], false)
        && is_live(sets, 1, 1, &[], false)
}

// The call uses the argument that was written for it and overwrites what its result is read from; the return uses what was
// written after the call.
fn is_right_for_call(sets: &LiveSets) -> bool {
    is_live(sets, 0, 0, &[], false)
        && is_live(sets, 0, 1, &[0], false)
        && is_live(sets, 0, 2, &[0, 24], false)
        && is_live(sets, 1, 0, &[2, 24], false)
        && is_live(sets, 1, 1, &[1, 24], false)
        && is_live(sets, 1, 2, &[1], false)
}

#[test]
fn the_carry_is_live_between_the_bytes_of_a_sum(rt: HostRuntime) {
    let found = sum(rt.alloc());
    assert!(rt; matches!(&found, Ok(sets) if is_right_for_sum(sets)));
}

#[test]
fn calls_use_and_overwrite_argument_places(rt: HostRuntime) {
    let found = call(rt.alloc());
    assert!(rt; matches!(&found, Ok(sets) if is_right_for_call(sets)));
}
