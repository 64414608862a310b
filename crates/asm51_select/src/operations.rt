//! The instructions of byte operations.

ghost use Rattle.std.specs.Prelude.{◌≡◌, ◌++◌, map, IfOk, false};
ghost use Rattle.asm51.specs.declared.items.AsmItem.TheVariants as Item;
ghost use Rattle.rtl.specs.Code.Views.{op_of};
ghost use Rattle.asm51_select.specs.Translation.{plains, op_code, move_code, load_code, store_code, loads_code, stores_code, pointer_code, division_code};

use crate::access::{
    B, DPH, DPL, P1, arith, constant, copy, give, give_b, is_register, special, take,
};
use asm51::{Asm, AsmItem};
use cerco_base::NoMemory;
use mcs51_isa::{BitChange, Instr, Move, MulDiv, Rotate, Whole};
use rtl::{ByteOp, Location, Place, Src};

/// Adds instructions.
pub fn add_all(asm: &mut Asm, instrs: &[Instr]) -> Result<(), NoMemory>
    ensures { IfOk result (λ _. asm.new ≡ asm.old ++ plains instrs.now) }
{
    for instr in instrs {
        asm.push(AsmItem::Plain(*instr))?;
    }
    Ok(())
}

// Adds a move between places, which is nothing where they are one.
fn add_move(asm: &mut Asm, target: Place, source: Place) -> Result<(), NoMemory>
    ensures { IfOk result (λ _. asm.new ≡ asm.old ++ plains (move_code target source)) }
{
    if target.code() == source.code() {
        return Ok(());
    }
    if is_register(target) && is_register(source) {
        return add_all(asm, &[take(Src::At(source)), give(target)]);
    }
    add_all(asm, &[copy(target, source)])
}

// Adds the load of one byte, before which DPTR may have to be raised.
fn add_load(asm: &mut Asm, raised: bool, place: Place) -> Result<(), NoMemory>
    ensures { IfOk result (λ _. asm.new ≡ asm.old ++ plains (load_code raised place)) }
{
    let load = Instr::MovxDptr(Move::IntoAcc);
    if raised {
        add_all(asm, &[Instr::IncDptr, load, give(place)])
    } else {
        add_all(asm, &[load, give(place)])
    }
}

// Adds the loads of the bytes from DPTR on.
fn add_loads(asm: &mut Asm, places: &[Place]) -> Result<(), NoMemory>
    ensures { IfOk result (λ _. asm.new ≡ asm.old ++ plains (loads_code false places.now)) }
{
    let mut raised = false;
    for place in places {
        add_load(asm, raised, *place)?;
        raised = true;
    }
    Ok(())
}

// Adds the store of one byte, before which DPTR may have to be raised.
fn add_store(asm: &mut Asm, raised: bool, place: Place) -> Result<(), NoMemory>
    ensures { IfOk result (λ _. asm.new ≡ asm.old ++ plains (store_code raised place)) }
{
    let store = Instr::MovxDptr(Move::FromAcc);
    if raised {
        add_all(asm, &[Instr::IncDptr, take(Src::At(place)), store])
    } else {
        add_all(asm, &[take(Src::At(place)), store])
    }
}

// Adds the stores of the bytes from DPTR on.
fn add_stores(asm: &mut Asm, places: &[Place]) -> Result<(), NoMemory>
    ensures { IfOk result (λ _. asm.new ≡ asm.old ++ plains (stores_code false places.now)) }
{
    let mut raised = false;
    for place in places {
        add_store(asm, raised, *place)?;
        raised = true;
    }
    Ok(())
}

// Adds what sets DPTR to the address at two places.
fn add_pointer(asm: &mut Asm, low: Place, high: Place) -> Result<(), NoMemory>
    ensures { IfOk result (λ _. asm.new ≡ asm.old ++ plains (pointer_code low high)) }
{
    add_all(
        asm,
        &[special(DPL, Src::At(low)), special(DPH, Src::At(high))],
    )
}

// Adds a load of bytes from the address at two places on.
fn add_loads_from(asm: &mut Asm, low: Place, high: Place, places: &[Place]) -> Result<(), NoMemory>
    ensures { IfOk result (λ _. asm.new ≡ asm.old ++ plains (pointer_code low high ++ loads_code false places.now)) }
{
    add_pointer(asm, low, high)?;
    add_loads(asm, places)
}

// Adds a store of bytes from the address at two places on.
fn add_stores_from(asm: &mut Asm, low: Place, high: Place, places: &[Place]) -> Result<(), NoMemory>
    ensures { IfOk result (λ _. asm.new ≡ asm.old ++ plains (pointer_code low high ++ stores_code false places.now)) }
{
    add_pointer(asm, low, high)?;
    add_stores(asm, places)
}

// Adds a division, after which A holds the quotient and B the remainder.
fn add_division(asm: &mut Asm, a: Place, b: Place, last: Instr) -> Result<(), NoMemory>
    ensures { IfOk result (λ _. asm.new ≡ asm.old ++ plains (division_code a b last)) }
{
    add_all(
        asm,
        &[
            special(B, Src::At(b)),
            take(Src::At(a)),
            Instr::Multiplier(MulDiv::DivAb),
            last,
        ],
    )
}

/// Adds an operation.
pub fn add_op(asm: &mut Asm, op: &ByteOp<Place>) -> Result<(), NoMemory>
    ensures { IfOk result (λ _. asm.new ≡ asm.old ++ plains (op_code (op_of op.now))) }
{
    match op {
        ByteOp::Const(d, byte) => add_all(asm, &[constant(*d, *byte)]),
        ByteOp::Move(d, s) => add_move(asm, *d, *s),
        ByteOp::Op(o, d, a, b) => add_all(asm, &[take(*a), arith(*o, *b), give(*d)]),
        ByteOp::Mul(l, h, a, b) => add_all(
            asm,
            &[
                special(B, *b),
                take(*a),
                Instr::Multiplier(MulDiv::MulAb),
                give(*l),
                give_b(*h),
            ],
        ),
        ByteOp::Div(d, a, b) => add_division(asm, *a, *b, give(*d)),
        ByteOp::Rem(d, a, b) => add_division(asm, *a, *b, give_b(*d)),
        ByteOp::Rlc(d, a) => add_all(
            asm,
            &[take(Src::At(*a)), Instr::RotateAcc(Rotate::Rlc), give(*d)],
        ),
        ByteOp::Rrc(d, a) => add_all(
            asm,
            &[take(Src::At(*a)), Instr::RotateAcc(Rotate::Rrc), give(*d)],
        ),
        ByteOp::Top(a) => add_all(asm, &[take(Src::At(*a)), Instr::RotateAcc(Rotate::Rlc)]),
        ByteOp::ClearCarry => add_all(asm, &[Instr::ChangeCarry(BitChange::Clr)]),
        ByteOp::SetCarry => add_all(asm, &[Instr::ChangeCarry(BitChange::Setb)]),
        ByteOp::FlipCarry => add_all(asm, &[Instr::ChangeCarry(BitChange::Cpl)]),
        ByteOp::FromCarry(d) => add_all(
            asm,
            &[
                Instr::WholeAcc(Whole::ClearAcc),
                Instr::RotateAcc(Rotate::Rlc),
                give(*d),
            ],
        ),
        ByteOp::Load(ds, l, h) => add_loads_from(asm, *l, *h, ds.as_slice()),
        ByteOp::Store(l, h, ss) => add_stores_from(asm, *l, *h, ss.as_slice()),
        ByteOp::ReadPort(d) => add_all(asm, &[Instr::MovDirect(Move::IntoAcc, P1), give(*d)]),
        ByteOp::WritePort(s) => add_all(
            asm,
            &[take(Src::At(*s)), Instr::MovDirect(Move::FromAcc, P1)],
        ),
    }
}
