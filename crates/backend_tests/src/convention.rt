//! The places of arguments and results.

use crate::setters::{graph, program};
use ertl_gen::to_ertl;
use ltl_alloc::{Allocation, Spot, one_cell_each};
use rtl::{ByteOp, Bytes, Vreg};
use std::alloc::Global;

// The first virtual register that a program sets.
fn first_set(program: &Bytes<Vreg>) -> Option<u32> {
    let node = program.graphs.as_slice().first()?.nodes.as_slice().first()?;
    match node.ops.as_slice().first()? {
        ByteOp::Const(v, _) => Some(v.0),
        _ => None,
    }
}

// The virtual register of ERTL in place of one of RTL.
fn in_ertl(alloc: Global, v: u32) -> Option<u32> {
    let rtl = program(alloc, &[v]).ok()?;
    let ertl = to_ertl(alloc, &rtl).ok()?;
    first_set(&ertl)
}

// Virtual registers of RTL, and those of ERTL in their place: arguments and results go from 12 to 23 to 0 to 11.
#[rattlefmt::skip]
const MOVED: [(u32, u32); 8] = [(12, 0), (17, 5), (23, 11), (0, 12), (11, 23), (24, 24), (25, 25), (900, 900)];

#[test]
fn arguments_move_to_their_places(rt: HostRuntime) {
    for (v, w) in MOVED {
        assert!(rt; in_ertl(rt.alloc(), v) == Some(w), "{v}");
    }
}

// Where these virtual registers are kept, with one cell for each but the arguments.
fn plainest(alloc: Global) -> Option<Allocation> {
    let graph = graph(alloc, &[30, 0, 5, 6, 11, 24, 30]).ok()?;
    one_cell_each(alloc, &graph).ok()
}

// A letter and a number for the place of a virtual register.
fn place_of(allocation: &Allocation, v: u32) -> (u8, u32) {
    match allocation.place(Vreg(v)) {
        Some(Spot::Reg(n)) => (b'R', u32::from(n)),
        Some(Spot::Arg(n)) => (b'A', u32::from(n)),
        Some(Spot::Cell(n)) => (b'C', n),
        None => (b'-', 0),
    }
}

// Arguments are in R2 to R7 and then in six bytes of memory.
#[rattlefmt::skip]
const PLACES: [(u32, u8, u32); 8] = [(0, b'R', 2), (5, b'R', 7), (6, b'A', 0), (11, b'A', 5), (24, b'C', 0), (30, b'C', 1), (25, b'-', 0), (31, b'-', 0)];

#[test]
fn virtual_registers_have_their_places(rt: HostRuntime) {
    let found = plainest(rt.alloc());
    assert!(rt; found.is_some());
    if let Some(allocation) = found {
        assert!(rt; allocation.cells() == 2);
        for (v, letter, number) in PLACES {
            assert!(rt; place_of(&allocation, v) == (letter, number), "{v}");
        }
    }
}
