//! Rows of neighbours. What is live together at a point was so at the point before, or was written
//! between the two. So it is enough to look at all pairs where no later node leads to a node, and
//! elsewhere at what an operation writes, or a call, beside what is live after it.
ghost use Rattle.std.specs.Prelude.{◌≡◌, ℕ, ◌<◌, ◌++◌, ◌∷◌, [], length, map, All, OnOk, IfOk};
ghost use Rattle.rtl.specs.Code.Views.{op_of};
ghost use Rattle.colouring.specs.Code.Rows.{near_of};
ghost use Rattle.colouring.specs.Code.Neighbours.{HasAdded, Between, numbers, written_by, AtOperation, AtOperations, live_at, HasMore, VregsBelow, PointsBelow, OpsBelow};

use crate::greedy::Row;
use cerco_base::NoMemory;
use rtl::{ByteOp, LivePoint, Vreg};
use std::alloc::Global;

// w is in the row of v.
fn push_near(rows: &mut Vec<Row>, v: u32, w: u32) -> Result<(), NoMemory>
    requires { v < length rows.old.items }
    ensures { OnOk result (HasMore v w rows.old.items rows.new.items) }
{
    rows[v as usize].near.push(w)?;
    Ok(())
}

// The smaller one of two is in the row of the other.
fn add_pair(rows: &mut Vec<Row>, v: u32, w: u32) -> Result<(), NoMemory>
    requires first { v < length rows.old.items }
    requires second { w < length rows.old.items }
    ensures { OnOk result (HasAdded (Between (v ∷ []) (w ∷ [])) rows.old.items rows.new.items) }
{
    if w < v {
        push_near(rows, v, w)
    } else if v < w {
        push_near(rows, w, v)
    } else {
        Ok(())
    }
}

// One with each of the others.
pub(crate) fn add_with(rows: &mut Vec<Row>, v: Vreg, others: &[Vreg]) -> Result<(), NoMemory>
    requires first { v.0 < length rows.old.items }
    requires others { VregsBelow (length rows.old.items) others.now }
    ensures { OnOk result (HasAdded (Between (v.0 ∷ []) (numbers others.now)) rows.old.items rows.new.items) }
{
    for w in others {
        add_pair(rows, v.0, w.0)?;
    }
    Ok(())
}

// Each one of these with each one of those.
pub(crate) fn add_pairs(
    rows: &mut Vec<Row>,
    firsts: &[Vreg],
    others: &[Vreg],
) -> Result<(), NoMemory>
    requires firsts { VregsBelow (length rows.old.items) firsts.now }
    requires others { VregsBelow (length rows.old.items) others.now }
    ensures { OnOk result (HasAdded (Between (numbers firsts.now) (numbers others.now)) rows.old.items rows.new.items) }
{
    for v in firsts {
        add_with(rows, *v, others)?;
    }
    Ok(())
}

// These virtual registers.
fn list_of(alloc: Global, vregs: &[Vreg]) -> Result<Vec<Vreg>, NoMemory>
    ensures { IfOk result (λ list. list.items ≡ vregs.now) }
{
    let mut list = Vec::new(alloc);
    list.extend_from_slice(vregs)?;
    Ok(list)
}

// What an operation writes.
fn written(alloc: Global, op: &ByteOp<Vreg>) -> Result<Vec<Vreg>, NoMemory>
    ensures { IfOk result (λ list. list.items ≡ written_by (op_of op.now)) }
{
    match op {
        ByteOp::Const(d, _) => list_of(alloc, &[*d]),
        ByteOp::Move(d, _) => list_of(alloc, &[*d]),
        ByteOp::Op(_, d, _, _) => list_of(alloc, &[*d]),
        ByteOp::Mul(l, h, _, _) => list_of(alloc, &[*l, *h]),
        ByteOp::Div(d, _, _) => list_of(alloc, &[*d]),
        ByteOp::Rem(d, _, _) => list_of(alloc, &[*d]),
        ByteOp::Rlc(d, _) => list_of(alloc, &[*d]),
        ByteOp::Rrc(d, _) => list_of(alloc, &[*d]),
        ByteOp::FromCarry(d) => list_of(alloc, &[*d]),
        ByteOp::Load(ds, _, _) => list_of(alloc, ds.as_slice()),
        ByteOp::ReadPort(d) => list_of(alloc, &[*d]),
        ByteOp::Top(_) => list_of(alloc, &[]),
        ByteOp::ClearCarry => list_of(alloc, &[]),
        ByteOp::SetCarry => list_of(alloc, &[]),
        ByteOp::FlipCarry => list_of(alloc, &[]),
        ByteOp::Store(_, _, _) => list_of(alloc, &[]),
        ByteOp::WritePort(_) => list_of(alloc, &[]),
    }
}

// What an operation writes, with what is live after it and with what else it writes.
fn add_op(
    alloc: Global,
    rows: &mut Vec<Row>,
    op: &ByteOp<Vreg>,
    after: &[Vreg],
) -> Result<(), NoMemory>
    requires op { VregsBelow (length rows.old.items) (written_by (op_of op.now)) }
    requires after { VregsBelow (length rows.old.items) after.now }
    ensures { OnOk result (HasAdded (AtOperation (op_of op.now) (numbers after.now)) rows.old.items rows.new.items) }
{
    let written = written(alloc, op)?;
    add_pairs(rows, &written, after)?;
    add_pairs(rows, &written, &written)
}

// The same of the operations of a node.
pub(crate) fn add_ops(
    alloc: Global,
    rows: &mut Vec<Row>,
    ops: &[ByteOp<Vreg>],
    points: &[LivePoint],
) -> Result<(), NoMemory>
    requires many { length ops.now < length points.now }
    requires ops { OpsBelow (length rows.old.items) (map op_of ops.now) }
    requires points { PointsBelow (length rows.old.items) points.now }
    ensures { OnOk result (HasAdded (AtOperations (map op_of ops.now) points.now (length ops.now)) rows.old.items rows.new.items) }
{
    for (k, op) in ops.iter().enumerate() {
        add_op(alloc, rows, op, points[k + 1].vregs.as_slice())?;
    }
    Ok(())
}
