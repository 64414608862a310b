//! How instructions reach the places of the processor: the registers of bank 0 by their numbers,
//! and all other places by their addresses in internal RAM.

ghost use Rattle.std.specs.Prelude.{◌≡◌};
ghost use Rattle.mcs51_isa.specs.Operands.{reg_of};
ghost use Rattle.asm51_select.specs.Translation.{direct_address, take_code, give_code, special_code, give_b_code, arith_code, sum_code, logic_code, constant_code, copy_code, is_reg};

use mcs51_isa::{Instr, Logic, Move, Reg, SumOp};
use rtl::{Arith, Place, Src};

/// The direct address of B.
pub const B: u8 = 0xF0;

/// The direct address of the low byte of DPTR.
pub const DPL: u8 = 0x82;

/// The direct address of the high byte of DPTR.
pub const DPH: u8 = 0x83;

/// The direct address of port 1.
pub const P1: u8 = 0x90;

// The register with this number, if there is one, else R0.
fn register(number: u8) -> Reg
    ensures { result ≡ reg_of number }
{
    match number {
        1 => Reg::R1,
        2 => Reg::R2,
        3 => Reg::R3,
        4 => Reg::R4,
        5 => Reg::R5,
        6 => Reg::R6,
        7 => Reg::R7,
        _ => Reg::R0,
    }
}

// The direct address of a place.
fn address(place: Place) -> u8
    ensures { result ≡ direct_address place }
{
    match place {
        Place::Reg(n) => n,
        Place::Arg(n) => n.wrapping_add(8),
        Place::Cell(n) => n.wrapping_add(16),
    }
}

/// `MOV A,Rn`, `MOV A,dir` or `MOV A,#d`.
pub fn take(source: Src<Place>) -> Instr
    ensures { result ≡ take_code source }
{
    match source {
        Src::At(Place::Reg(n)) => Instr::MovRegister(Move::IntoAcc, register(n)),
        Src::At(place) => Instr::MovDirect(Move::IntoAcc, address(place)),
        Src::Byte(byte) => Instr::MovAccImmediate(byte),
    }
}

/// `MOV Rn,A` or `MOV dir,A`.
pub fn give(place: Place) -> Instr
    ensures { result ≡ give_code place }
{
    match place {
        Place::Reg(n) => Instr::MovRegister(Move::FromAcc, register(n)),
        _ => Instr::MovDirect(Move::FromAcc, address(place)),
    }
}

/// `MOV x,Rn`, `MOV x,dir` or `MOV x,#d`, for the special register with the address x.
pub fn special(x: u8, source: Src<Place>) -> Instr
    ensures { result ≡ special_code x source }
{
    match source {
        Src::At(Place::Reg(n)) => Instr::MovDirectRegister(x, register(n)),
        Src::At(place) => Instr::MovDirectDirect {
            source: address(place),
            target: x,
        },
        Src::Byte(byte) => Instr::MovDirectImmediate(x, byte),
    }
}

/// `MOV Rn,B` or `MOV dir,B`.
pub fn give_b(place: Place) -> Instr
    ensures { result ≡ give_b_code place }
{
    match place {
        Place::Reg(n) => Instr::MovRegisterDirect(register(n), B),
        _ => Instr::MovDirectDirect {
            source: B,
            target: address(place),
        },
    }
}

// A sum or a difference in A.
fn sum(op: SumOp, source: Src<Place>) -> Instr
    ensures { result ≡ sum_code op source }
{
    match source {
        Src::At(Place::Reg(n)) => Instr::ArithRegister(op, register(n)),
        Src::At(place) => Instr::ArithDirect(op, address(place)),
        Src::Byte(byte) => Instr::ArithImmediate(op, byte),
    }
}

// A logical operation in A.
fn logic(op: Logic, source: Src<Place>) -> Instr
    ensures { result ≡ logic_code op source }
{
    match source {
        Src::At(Place::Reg(n)) => Instr::LogicRegister(op, register(n)),
        Src::At(place) => Instr::LogicDirect(op, address(place)),
        Src::Byte(byte) => Instr::LogicImmediate(op, byte),
    }
}

/// An operation on A and a source, in A.
pub fn arith(op: Arith, source: Src<Place>) -> Instr
    ensures { result ≡ arith_code op source }
{
    match op {
        Arith::Add => sum(SumOp::Add, source),
        Arith::Addc => sum(SumOp::Addc, source),
        Arith::Subb => sum(SumOp::Subb, source),
        Arith::And => logic(Logic::Anl, source),
        Arith::Or => logic(Logic::Orl, source),
        Arith::Xor => logic(Logic::Xrl, source),
    }
}

/// `MOV Rn,#c` or `MOV dir,#c`.
pub fn constant(place: Place, byte: u8) -> Instr
    ensures { result ≡ constant_code place byte }
{
    match place {
        Place::Reg(n) => Instr::MovRegisterImmediate(register(n), byte),
        _ => Instr::MovDirectImmediate(address(place), byte),
    }
}

/// `MOV Rn,dir`, `MOV dir,Rn` or `MOV dir,dir`, where not both places are registers.
pub fn copy(target: Place, source: Place) -> Instr
    ensures { result ≡ copy_code target source }
{
    match (target, source) {
        (Place::Reg(n), _) => Instr::MovRegisterDirect(register(n), address(source)),
        (_, Place::Reg(n)) => Instr::MovDirectRegister(address(target), register(n)),
        (_, _) => Instr::MovDirectDirect {
            source: address(source),
            target: address(target),
        },
    }
}

/// Whether the place is a register.
pub fn is_register(place: Place) -> bool
    ensures { result ≡ is_reg place }
{
    matches!(place, Place::Reg(_))
}
