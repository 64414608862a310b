//! Each operator on a table of operands against each other.

use crate::results::result_of;
use cerco_base::NoMemory;
use cerco_middle::{CmOp, Held, RtOp};
use std::alloc::Global;

const OPERANDS: [u16; 9] = [0, 1, 127, 128, 255, 256, 32767, 32768, 65535];

fn signed(x: u16) -> i32 {
    if x < 32768 {
        x as i32
    } else {
        x as i32 - 65536
    }
}

fn flag(holds: bool) -> u16 {
    if holds { 1 } else { 0 }
}

// What an operator gives, as whole numbers tell.
fn wanted(operator: CmOp, x: u16, y: u16) -> u16 {
    match operator {
        CmOp::Add => x.wrapping_add(y),
        CmOp::Sub => x.wrapping_sub(y),
        CmOp::And => x & y,
        CmOp::Or => x | y,
        CmOp::Xor => x ^ y,
        CmOp::Eq => flag(x == y),
        CmOp::Ne => flag(x != y),
        CmOp::LtS => flag(signed(x) < signed(y)),
        CmOp::LtU => flag(x < y),
        CmOp::LeS => flag(signed(x) <= signed(y)),
        CmOp::LeU => flag(x <= y),
        _ => 0,
    }
}

// Whether an operator gives what it is to give on all operands of the table, and on each of them with itself.
fn is_right(alloc: Global, operator: CmOp) -> Result<bool, NoMemory> {
    let mut right = true;
    for x in OPERANDS {
        for y in OPERANDS {
            let op = RtOp::Bin {
                operator,
                left: 0,
                right: 1,
            };
            right = right && result_of(alloc, op, x, y)? == wanted(operator, x, y);
        }
        let op = RtOp::Bin {
            operator,
            left: 0,
            right: 0,
        };
        right = right && result_of(alloc, op, x, 0)? == wanted(operator, x, x);
    }
    Ok(right)
}

#[test]
fn sums_and_bits(rt: HostRuntime) {
    let alloc = rt.alloc();
    for operator in [CmOp::Add, CmOp::Sub, CmOp::And, CmOp::Or, CmOp::Xor] {
        assert!(rt; matches!(is_right(alloc, operator), Ok(true)));
    }
}

#[test]
fn comparisons(rt: HostRuntime) {
    let alloc = rt.alloc();
    for operator in [
        CmOp::Eq,
        CmOp::Ne,
        CmOp::LtS,
        CmOp::LtU,
        CmOp::LeS,
        CmOp::LeU,
    ] {
        assert!(rt; matches!(is_right(alloc, operator), Ok(true)));
    }
}

#[test]
fn shifts(rt: HostRuntime) {
    let alloc = rt.alloc();
    for (op, x, y) in [
        (RtOp::Shl(1, 0), 0x80FF, 0x01FE),
        (RtOp::Shl(9, 0), 0x0081, 0x0200),
        (RtOp::Shr(1, false, 0), 0x8001, 0x4000),
        (RtOp::Shr(1, true, 0), 0x8001, 0xC000),
        (RtOp::Shr(20, true, 0), 0x8000, 0xFFFF),
        (RtOp::Shr(4, true, 0), 0x7F10, 0x07F1),
        (RtOp::Shl(0, 0), 0x1234, 0x1234),
    ] {
        assert!(rt; result_of(alloc, op, x, 0) == Ok(y));
    }
}

#[test]
fn single_operands(rt: HostRuntime) {
    let alloc = rt.alloc();
    for (op, x, y) in [
        (RtOp::Neg(0), 1, 0xFFFF),
        (RtOp::Neg(0), 0, 0),
        (RtOp::Neg(0), 0x8000, 0x8000),
        (RtOp::Not(0), 0x00FF, 0xFF00),
        (RtOp::Narrow(Held::U8, 0), 0x1280, 0x0080),
        (RtOp::Narrow(Held::I8, 0), 0x1280, 0xFF80),
        (RtOp::Narrow(Held::I8, 0), 0xFF7F, 0x007F),
        (RtOp::Narrow(Held::W16, 0), 0x1280, 0x1280),
        (RtOp::Const(0, 0xABCD), 0, 0xABCD),
    ] {
        assert!(rt; result_of(alloc, op, x, 0) == Ok(y));
    }
}
