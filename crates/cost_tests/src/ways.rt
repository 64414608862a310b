//! Costs of small codes, counted by hand from the manual's cycles.
ghost use Rattle.std.specs.Prelude.{◌≤◌, length};

use block_costs::{CostFault, Marks, cost_of, start_cost};
use std::alloc::Global;

fn start(alloc: Global, code: &[u8], labels: &[u16]) -> Option<Result<u32, CostFault>>
    requires { length code.now ≤ 65536 }
{
    let marks = Marks::new(alloc, labels).ok()?;
    Some(start_cost(code, &marks))
}

fn cost(alloc: Global, code: &[u8], labels: &[u16], from: u16) -> Option<Result<u32, CostFault>>
    requires { length code.now ≤ 65536 }
{
    let marks = Marks::new(alloc, labels).ok()?;
    Some(cost_of(code, &marks, from))
}

// MOV SP,#7FH; LCALL 8; SJMP to itself; and at 8, a label: NOP; RET
const PROGRAM: &[u8] = &[0x75, 0x81, 0x7F, 0x12, 0x00, 0x08, 0x80, 0xFE, 0x00, 0x22];

#[test]
fn ways_to_ends(rt: HostRuntime) {
    let alloc = rt.alloc();
    assert!(rt; matches!(&start(alloc, PROGRAM, &[8]), Some(Ok(4))));
    assert!(rt; matches!(&cost(alloc, PROGRAM, &[8], 8), Some(Ok(3))));
    assert!(rt; matches!(&start(alloc, PROGRAM, &[0]), Some(Ok(0))));
    assert!(rt; matches!(&start(alloc, &[0x22], &[]), Some(Ok(2))));
    assert!(rt; matches!(&start(alloc, &[0x80, 0xFE], &[]), Some(Ok(0))));
    // the jump to itself is at a label's address
    assert!(rt; matches!(&cost(alloc, &[0x00, 0x80, 0xFE], &[1], 1), Some(Ok(0))));
    // LJMP, AJMP and ACALL go on at their targets, MUL takes four cycles
    assert!(rt;
        matches!(
            &start(
                alloc,
                &[
                    0x02, 0x00, 0x05, 0xA5, 0xA5, 0x01, 0x08, 0xA5, 0x11, 0x0B, 0xA5, 0xA4, 0x22
                ],
                &[]
            ),
            Some(Ok(12))
        )
    );
}

#[test]
fn ways_that_part(rt: HostRuntime) {
    let alloc = rt.alloc();
    // JZ over a NOP to the halt
    assert!(rt;
        matches!(
            &start(alloc, &[0x60, 0x01, 0x00, 0x80, 0xFE], &[]),
            Some(Err(CostFault::Unequal { at: 0, a: 3, b: 2 }))
        )
    );
    assert!(rt;
        matches!(
            &start(alloc, &[0x60, 0x01, 0x00, 0x80, 0xFE], &[2]),
            Some(Ok(2))
        )
    );
    assert!(rt;
        matches!(
            &start(alloc, &[0x60, 0x00, 0x70, 0x00], &[]),
            Some(Err(CostFault::Second { at: 2 }))
        )
    );
    // the plain way's fault comes first
    assert!(rt;
        matches!(
            &start(alloc, &[0x60, 0x01, 0xA5, 0x73], &[]),
            Some(Err(CostFault::Reserved { at: 2 }))
        )
    );
    assert!(rt;
        matches!(
            &start(alloc, &[0x60, 0x01, 0x22, 0x73], &[]),
            Some(Err(CostFault::NoTarget { at: 3 }))
        )
    );
}

#[test]
fn faults_of_ways(rt: HostRuntime) {
    let alloc = rt.alloc();
    assert!(rt;
        matches!(
            &start(alloc, &[0x73], &[]),
            Some(Err(CostFault::NoTarget { at: 0 }))
        )
    );
    assert!(rt;
        matches!(
            &start(alloc, &[0x00, 0xA5], &[]),
            Some(Err(CostFault::Reserved { at: 1 }))
        )
    );
    // NOPs all around the code memory, and back at the start
    assert!(rt;
        matches!(
            &start(alloc, &[], &[]),
            Some(Err(CostFault::NoLabel { at: 0 }))
        )
    );
    assert!(rt;
        matches!(
            &cost(alloc, &[], &[], 5),
            Some(Err(CostFault::NoLabel { at: 5 }))
        )
    );
    // with a label after 65,535 of them
    assert!(rt; matches!(&cost(alloc, &[], &[4], 5), Some(Ok(65535))));
    assert!(rt; matches!(&cost(alloc, &[], &[5], 5), Some(Ok(65536))));
}
