//! What holds values, and which operations read and write it.
ghost use Rattle.std.specs.Prelude.{◌≡◌, [], ◌∷◌, ◌++◌, OnOk};
ghost use Rattle.rtl.specs.Effects.{operand_reads, arith_reads, arith_writes, reads, writes};
ghost use Rattle.liveness.specs.Code.Views.{storages_of, locs_of, numbered_op, numbered_ops, numbered_operand};
ghost use Rattle.liveness.specs.Code.Flow.{all_writes};

use cerco_base::NoMemory;
use rtl::{Arith, ByteOp, Src, Vreg};

/// What holds a value: a virtual register by its number, or the carry.
#[derive(Clone, Copy)]
pub enum Storage {
    Vreg(u32),
    Carry,
}

/// Adds virtual registers.
pub fn add_vregs(list: &mut Vec<Storage>, vregs: &[Vreg]) -> Result<(), NoMemory>
    ensures { OnOk result (storages_of list.new.items ≡ storages_of list.old.items ++ locs_of vregs.now) }
{
    for v in vregs {
        list.push(Storage::Vreg(v.0))?;
    }
    Ok(())
}

// Adds the carry and virtual registers.
fn add_carry_and(list: &mut Vec<Storage>, vregs: &[Vreg]) -> Result<(), NoMemory>
    ensures { OnOk result (storages_of list.new.items ≡ storages_of list.old.items ++ (Rattle.rtl.specs.Effects.Carry ∷ locs_of vregs.now)) }
{
    list.push(Storage::Carry)?;
    add_vregs(list, vregs)
}

// Adds virtual registers and the carry.
fn add_and_carry(list: &mut Vec<Storage>, vregs: &[Vreg]) -> Result<(), NoMemory>
    ensures { OnOk result (storages_of list.new.items ≡ storages_of list.old.items ++ (locs_of vregs.now ++ Rattle.rtl.specs.Effects.Carry ∷ [])) }
{
    add_vregs(list, vregs)?;
    Ok(list.push(Storage::Carry)?)
}

// Adds what an operand reads.
fn add_operand(list: &mut Vec<Storage>, operand: Src<Vreg>) -> Result<(), NoMemory>
    ensures { OnOk result (storages_of list.new.items ≡ storages_of list.old.items ++ operand_reads (numbered_operand operand)) }
{
    match operand {
        Src::At(v) => add_vregs(list, &[v]),
        Src::Byte(_) => Ok(()),
    }
}

// Adds what two operands read.
fn add_operands(list: &mut Vec<Storage>, a: Src<Vreg>, b: Src<Vreg>) -> Result<(), NoMemory>
    ensures { OnOk result (storages_of list.new.items ≡ storages_of list.old.items ++ (operand_reads (numbered_operand a) ++ operand_reads (numbered_operand b))) }
{
    add_operand(list, a)?;
    add_operand(list, b)
}

// Adds the carry, where the operation on two bytes uses it.
fn add_carry_into(list: &mut Vec<Storage>, arith: Arith) -> Result<(), NoMemory>
    ensures { OnOk result (storages_of list.new.items ≡ storages_of list.old.items ++ arith_reads arith) }
{
    match arith {
        Arith::Addc => add_carry_and(list, &[]),
        Arith::Subb => add_carry_and(list, &[]),
        _ => Ok(()),
    }
}

// Adds the carry, where the operation on two bytes sets it.
fn add_carry_of(list: &mut Vec<Storage>, arith: Arith) -> Result<(), NoMemory>
    ensures { OnOk result (storages_of list.new.items ≡ storages_of list.old.items ++ arith_writes arith) }
{
    match arith {
        Arith::Add => add_carry_and(list, &[]),
        Arith::Addc => add_carry_and(list, &[]),
        Arith::Subb => add_carry_and(list, &[]),
        _ => Ok(()),
    }
}

// Adds what an operation on two bytes reads.
fn add_arith_reads(
    list: &mut Vec<Storage>,
    arith: Arith,
    a: Src<Vreg>,
    b: Src<Vreg>,
) -> Result<(), NoMemory>
    ensures { OnOk result (storages_of list.new.items ≡ storages_of list.old.items ++ (arith_reads arith ++ (operand_reads (numbered_operand a) ++ operand_reads (numbered_operand b)))) }
{
    add_carry_into(list, arith)?;
    add_operands(list, a, b)
}

// Adds what an operation on two bytes writes.
fn add_arith_writes(list: &mut Vec<Storage>, arith: Arith, d: Vreg) -> Result<(), NoMemory>
    ensures { OnOk result (storages_of list.new.items ≡ storages_of list.old.items ++ (locs_of (d ∷ []) ++ arith_writes arith)) }
{
    add_vregs(list, &[d])?;
    add_carry_of(list, arith)
}

// Adds these virtual registers and more.
fn add_both(list: &mut Vec<Storage>, first: &[Vreg], more: &[Vreg]) -> Result<(), NoMemory>
    ensures { OnOk result (storages_of list.new.items ≡ storages_of list.old.items ++ (locs_of first.now ++ locs_of more.now)) }
{
    add_vregs(list, first)?;
    add_vregs(list, more)
}

/// Adds what an operation reads.
pub fn add_reads(list: &mut Vec<Storage>, op: &ByteOp<Vreg>) -> Result<(), NoMemory>
    ensures { OnOk result (storages_of list.new.items ≡ storages_of list.old.items ++ reads (numbered_op op.now)) }
{
    match op {
        ByteOp::Const(_, _) => Ok(()),
        ByteOp::Move(_, a) => add_vregs(list, &[*a]),
        ByteOp::Op(o, _, a, b) => add_arith_reads(list, *o, *a, *b),
        ByteOp::Mul(_, _, a, b) => add_operands(list, *a, *b),
        ByteOp::Div(_, a, b) => add_vregs(list, &[*a, *b]),
        ByteOp::Rem(_, a, b) => add_vregs(list, &[*a, *b]),
        ByteOp::Rlc(_, a) => add_carry_and(list, &[*a]),
        ByteOp::Rrc(_, a) => add_carry_and(list, &[*a]),
        ByteOp::Top(a) => add_vregs(list, &[*a]),
        ByteOp::ClearCarry => Ok(()),
        ByteOp::SetCarry => Ok(()),
        ByteOp::FlipCarry => add_carry_and(list, &[]),
        ByteOp::FromCarry(_) => add_carry_and(list, &[]),
        ByteOp::Load(_, l, h) => add_vregs(list, &[*l, *h]),
        ByteOp::Store(l, h, ss) => add_both(list, &[*l, *h], ss.as_slice()),
        ByteOp::ReadPort(_) => Ok(()),
        ByteOp::WritePort(a) => add_vregs(list, &[*a]),
    }
}

/// Adds what an operation writes.
pub fn add_writes(list: &mut Vec<Storage>, op: &ByteOp<Vreg>) -> Result<(), NoMemory>
    ensures { OnOk result (storages_of list.new.items ≡ storages_of list.old.items ++ writes (numbered_op op.now)) }
{
    match op {
        ByteOp::Const(d, _) => add_vregs(list, &[*d]),
        ByteOp::Move(d, _) => add_vregs(list, &[*d]),
        ByteOp::Op(o, d, _, _) => add_arith_writes(list, *o, *d),
        ByteOp::Mul(l, h, _, _) => add_and_carry(list, &[*l, *h]),
        ByteOp::Div(d, _, _) => add_and_carry(list, &[*d]),
        ByteOp::Rem(d, _, _) => add_and_carry(list, &[*d]),
        ByteOp::Rlc(d, _) => add_and_carry(list, &[*d]),
        ByteOp::Rrc(d, _) => add_and_carry(list, &[*d]),
        ByteOp::Top(_) => add_carry_and(list, &[]),
        ByteOp::ClearCarry => add_carry_and(list, &[]),
        ByteOp::SetCarry => add_carry_and(list, &[]),
        ByteOp::FlipCarry => add_carry_and(list, &[]),
        ByteOp::FromCarry(d) => add_and_carry(list, &[*d]),
        ByteOp::Load(ds, _, _) => add_vregs(list, ds.as_slice()),
        ByteOp::Store(_, _, _) => Ok(()),
        ByteOp::ReadPort(d) => add_vregs(list, &[*d]),
        ByteOp::WritePort(_) => Ok(()),
    }
}

/// Adds what operations write.
pub fn add_all_writes(list: &mut Vec<Storage>, ops: &[ByteOp<Vreg>]) -> Result<(), NoMemory>
    ensures { OnOk result (storages_of list.new.items ≡ storages_of list.old.items ++ all_writes (numbered_ops ops.now)) }
{
    for op in ops {
        add_writes(list, op)?;
    }
    Ok(())
}
