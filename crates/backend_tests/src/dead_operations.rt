//! What is left of small graphs without the operations that nothing needs.

use crate::setters::program;
use cerco_base::NoMemory;
use dropping::{drop_dead, drop_dead_program};
use rtl::{Arith, ByteOp, Exit, Graph, Node, Ops, Sequence, Src, Vreg};
use std::alloc::Global;

// A graph of two nodes, of which the second one returns.
fn graph(
    alloc: Global,
    first: Ops<Vreg>,
    exit: Exit<Vreg>,
    second: Ops<Vreg>,
) -> Result<Graph<Vreg>, NoMemory> {
    let mut nodes = Sequence::new(alloc);
    nodes.push(Node { ops: first, exit })?;
    nodes.push(Node {
        ops: second,
        exit: Exit::Return,
    })?;
    Ok(Graph { entry: 0, nodes })
}

// How many operations are left in its nodes.
fn left(alloc: Global, graph: &Graph<Vreg>) -> Option<(usize, usize)> {
    let pruned = drop_dead(alloc, graph).ok()?;
    let nodes = pruned.nodes.as_slice();
    let first = nodes.first()?.ops.as_slice().len();
    Some((first, nodes.get(1)?.ops.as_slice().len()))
}

fn shown(alloc: Global, v: u32) -> Result<Ops<Vreg>, NoMemory> {
    let mut ops = Sequence::new(alloc);
    ops.push(ByteOp::WritePort(Vreg(v)))?;
    Ok(ops)
}

// A value that is moved on and on.
fn chain(alloc: Global) -> Result<Ops<Vreg>, NoMemory> {
    let mut ops = Sequence::new(alloc);
    ops.push(ByteOp::Const(Vreg(24), 1))?;
    ops.push(ByteOp::Move(Vreg(25), Vreg(24)))?;
    ops.push(ByteOp::Move(Vreg(26), Vreg(25)))?;
    Ok(ops)
}

fn chain_of(alloc: Global, v: u32) -> Option<(usize, usize)> {
    let shown = shown(alloc, v).ok()?;
    let graph = graph(alloc, chain(alloc).ok()?, Exit::Next(1), shown).ok()?;
    left(alloc, &graph)
}

#[test]
fn what_serves_dead_operations_alone_is_dead(rt: HostRuntime) {
    assert!(rt; chain_of(rt.alloc(), 26) == Some((3, 1)));
    assert!(rt; chain_of(rt.alloc(), 25) == Some((2, 1)));
    assert!(rt; chain_of(rt.alloc(), 24) == Some((1, 1)));
    assert!(rt; chain_of(rt.alloc(), 27) == Some((0, 1)));
}

// A count that goes round, and nothing else uses it.
fn count(alloc: Global) -> Result<Ops<Vreg>, NoMemory> {
    let mut ops = Sequence::new(alloc);
    ops.push(ByteOp::Op(Arith::Add, Vreg(24), Src::At(Vreg(24)), Src::Byte(1)))?;
    ops.push(ByteOp::ReadPort(Vreg(25)))?;
    Ok(ops)
}

fn loop_of(alloc: Global, v: u32) -> Option<(usize, usize)> {
    let exit = Exit::Test(Vreg(25), 0, 1);
    let graph = graph(alloc, count(alloc).ok()?, exit, shown(alloc, v).ok()?).ok()?;
    left(alloc, &graph)
}

#[test]
fn what_serves_itself_alone_is_dead(rt: HostRuntime) {
    assert!(rt; loop_of(rt.alloc(), 25) == Some((1, 1)));
    assert!(rt; loop_of(rt.alloc(), 24) == Some((2, 1)));
}

// A sum of two bytes with its carry.
fn sum(alloc: Global) -> Result<Ops<Vreg>, NoMemory> {
    let mut ops = Sequence::new(alloc);
    ops.push(ByteOp::Const(Vreg(24), 1))?;
    ops.push(ByteOp::Op(Arith::Add, Vreg(26), Src::At(Vreg(24)), Src::Byte(2)))?;
    ops.push(ByteOp::Op(Arith::Addc, Vreg(27), Src::Byte(3), Src::Byte(0)))?;
    Ok(ops)
}

fn sum_of(alloc: Global, v: u32) -> Option<(usize, usize)> {
    let graph = graph(
        alloc,
        sum(alloc).ok()?,
        Exit::Next(1),
        shown(alloc, v).ok()?,
    )
    .ok()?;
    left(alloc, &graph)
}

#[test]
fn a_low_byte_is_needed_for_its_carry(rt: HostRuntime) {
    assert!(rt; sum_of(rt.alloc(), 27) == Some((3, 1)));
    assert!(rt; sum_of(rt.alloc(), 26) == Some((2, 1)));
}

// An argument, and what the call doesn't take.
fn arguments(alloc: Global) -> Result<Ops<Vreg>, NoMemory> {
    let mut ops = Sequence::new(alloc);
    ops.push(ByteOp::Const(Vreg(0), 5))?;
    ops.push(ByteOp::Const(Vreg(24), 7))?;
    ops.push(ByteOp::ClearCarry)?;
    Ok(ops)
}

fn call_of(alloc: Global, v: u32) -> Option<(usize, usize)> {
    let graph = graph(
        alloc,
        arguments(alloc).ok()?,
        Exit::Call(1, 1),
        shown(alloc, v).ok()?,
    )
    .ok()?;
    left(alloc, &graph)
}

#[test]
fn calls_use_what_is_handed_to_them(rt: HostRuntime) {
    assert!(rt; call_of(rt.alloc(), 1) == Some((1, 1)));
    assert!(rt; call_of(rt.alloc(), 24) == Some((2, 1)));
}

// How many operations are left in the first node of a program that sets these.
fn left_of(alloc: Global, set: &[u32]) -> Option<usize> {
    let before = program(alloc, set).ok()?;
    let after = drop_dead_program(alloc, &before).ok()?;
    let node = after.graphs.as_slice().first()?.nodes.as_slice().first()?;
    Some(node.ops.as_slice().len())
}

#[test]
fn a_program_keeps_what_it_hands_back(rt: HostRuntime) {
    assert!(rt; left_of(rt.alloc(), &[0, 24, 11, 30]) == Some(2));
}
