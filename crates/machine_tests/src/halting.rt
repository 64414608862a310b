//! Where runs stop, and the cycles of their events.

use crate::programs::{load, run, sparse};
use cerco_base::{Event, Label, Port};
use sim51::Step;
use std::test::Fail;

/// What a step came to, in a word.
fn outcome(step: Step) -> &'static str {
    match step {
        Step::Went(_) => "went on",
        Step::Halted => "halted",
        Step::Reserved => "reserved",
    }
}

// MOV SP,#7FH; LCALL 8; SJMP to itself; and from 8 on NOP; MOV P1,#5; RET
#[test]
fn a_call_passes_its_label(rt: HostRuntime) -> Result<(), Fail> {
    let code = [
        0x75, 0x81, 0x7F, 0x12, 0x00, 0x08, 0x80, 0xFE, 0x00, 0x75, 0x90, 0x05, 0x22,
    ];
    let mut machine = load(rt.alloc(), &code, Some(8), &[])?;
    let events = run(&rt, rt.alloc(), &mut machine)?;
    let expected = [(4, Event::Label(Label(0))), (5, Event::Write(Port::P1, 5))];
    assert!(rt; events.as_slice() == expected.as_slice());
    assert_eq!(rt; machine.cycles(), 9);
    assert_eq!(rt; machine.pc(), 6);
    assert!(rt; machine.cycles() < 100);
    assert_eq!(rt; outcome(machine.step()), "halted");
    Ok(())
}

#[test]
fn events_come_with_the_cycles_before_them(rt: HostRuntime) -> Result<(), Fail> {
    // MOV A,P1; MOV P2,A
    let mut copies = load(
        rt.alloc(),
        &[0xE5, 0x90, 0xF5, 0xA0, 0x80, 0xFE],
        None,
        &[7],
    )?;
    let events = run(&rt, rt.alloc(), &mut copies)?;
    let expected = [
        (0, Event::Read(Port::P1, 7)),
        (1, Event::Write(Port::P2, 7)),
    ];
    assert!(rt; events.as_slice() == expected.as_slice());
    assert_eq!(rt; copies.cycles(), 2);
    // ANL P1,#0FH
    let mut masks = load(rt.alloc(), &[0x53, 0x90, 0x0F, 0x80, 0xFE], None, &[])?;
    let events = run(&rt, rt.alloc(), &mut masks)?;
    assert!(rt; events.as_slice() == [(0, Event::Write(Port::P1, 15))].as_slice());
    assert_eq!(rt; masks.cycles(), 2);
    Ok(())
}

// Where a machine stops at its first step, whatever label is there, and where it goes on.
#[test]
fn a_jump_to_itself_and_the_reserved_opcode_stop(rt: HostRuntime) -> Result<(), Fail> {
    let stops: [(&[u8], &str); 4] = [
        (&[0x80, 0xFE], "halted"),
        (&[0x01, 0x00], "halted"),
        (&[0x02, 0x00, 0x00], "halted"),
        (&[0xA5], "reserved"),
    ];
    for (code, expected) in stops {
        assert!(rt; code.len() <= 65536);
        let mut machine = load(rt.alloc(), code, Some(0), &[])?;
        assert!(rt; machine.cycles() == 0);
        assert_eq!(rt; outcome(machine.step()), expected, "{code:?}");
        assert_eq!(rt; machine.pc(), 0);
        assert_eq!(rt; machine.cycles(), 0);
    }
    // a call of itself goes on, and so do NOPs past the code's end
    for code in [[0x12, 0x00, 0x00].as_slice(), [].as_slice()] {
        let mut machine = load(rt.alloc(), code, None, &[])?;
        run(&rt, rt.alloc(), &mut machine)?;
        assert!(rt; machine.cycles() >= 1000, "{code:?}");
    }
    Ok(())
}

// At FFFFH stands MOV A,# whose operand is the byte at 0; from 1 on MOV R7,A twice, MOV 60H,A and SJMP to itself.
#[test]
fn operands_wrap_at_the_end_of_the_code(rt: HostRuntime) -> Result<(), Fail> {
    let front: &[u8] = &[0x02, 0xFF, 0xFF, 0xF5, 0x60, 0x80, 0xFE];
    let code = sparse(&rt, rt.alloc(), 65536, &[(0, front), (0xFFFF, &[0x74])])?;
    assert!(rt; code.len() <= 65536);
    let mut machine = load(rt.alloc(), &code, None, &[])?;
    run(&rt, rt.alloc(), &mut machine)?;
    assert_eq!(rt; machine.iram(0x60), 0x02);
    assert_eq!(rt; machine.iram(0x07), 0x02);
    assert_eq!(rt; machine.cycles(), 6);
    Ok(())
}
