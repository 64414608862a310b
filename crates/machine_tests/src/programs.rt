//! Programs, most of them the manual's own examples, and what is checked of their runs.
ghost use Rattle.std.specs.Prelude.{◌≤◌, length};

use cerco_base::{Event, NoMemory};
use sim51::{Machine, Step};
use std::alloc::Global;
use std::process::Abort;
use std::test::Fail;

/// What is put after each program: MOV 60H,A; MOV 61H,PSW; SJMP to itself.
const ENDING: &[u8] = &[0xF5, 0x60, 0x85, 0xD0, 0x61, 0x80, 0xFE];

/// A machine with this code, with one label at most.
#[tactic(auto, using(sim51::proofs::Labels::distinct_short))]
pub fn load<'a>(
    alloc: Global,
    code: &[u8],
    label: Option<u16>,
    script: &'a [u8],
) -> Result<Machine<'a>, NoMemory>
    requires { length code.now ≤ 65536 }
{
    match label {
        Some(at) => Machine::load(alloc, code, &[at], script),
        None => Machine::load(alloc, code, &[], script),
    }
}

/// Code of this many bytes, all 0 but those from some addresses on.
pub fn sparse(
    rt: &impl Abort,
    alloc: Global,
    len: usize,
    pieces: &[(usize, &[u8])],
) -> Result<Vec<u8>, NoMemory> {
    let mut code = vec![in alloc; 0u8; len]?;
    for (start, piece) in pieces {
        let mut at = *start;
        for byte in *piece {
            assert!(rt; at < code.len());
            code[at] = *byte;
            at += 1;
        }
    }
    Ok(code)
}

/// Makes steps until one isn't an instruction, and lists their events, each with the cycles before it.
pub fn run(
    rt: &impl Abort,
    alloc: Global,
    machine: &mut Machine<'_>,
) -> Result<Vec<(u64, Event)>, NoMemory> {
    let mut events = Vec::new(alloc);
    for _ in 0..1000 {
        let before = machine.cycles();
        assert!(rt; before < 10_000);
        let Step::Went(made) = machine.step() else {
            return Ok(events);
        };
        if let Some(label) = made.label {
            events.push((before, Event::Label(label)))?;
        }
        if let Some((port, byte)) = made.read {
            events.push((before, Event::Read(port, byte)))?;
        }
        if let Some((port, byte)) = made.write {
            events.push((before, Event::Write(port, byte)))?;
        }
    }
    Ok(events)
}

/// The machine after a program and the ending, and the program's events.
pub fn finish<'a>(
    rt: &impl Abort,
    alloc: Global,
    program: &[u8],
    script: &'a [u8],
) -> Result<(Machine<'a>, Vec<Event>), NoMemory> {
    let mut code = program.to_vec(alloc)?;
    code.extend_from_slice(ENDING)?;
    assert!(rt; code.len() <= 65536);
    let mut machine = load(alloc, &code, None, script)?;
    let mut events = Vec::new(alloc);
    for (_, event) in run(rt, alloc, &mut machine)? {
        events.push(event)?;
    }
    Ok((machine, events))
}

/// Checks what each program leaves in the accumulator and the program status word.
pub fn check_flags(
    rt: &impl Abort,
    alloc: Global,
    cases: &[(&str, &[u8], u8, u8)],
) -> Result<(), Fail> {
    for (text, program, acc, psw) in cases {
        let (machine, events) = finish(rt, alloc, program, &[])?;
        assert_eq!(rt; machine.iram(0x60), *acc, "A after {text}");
        assert_eq!(rt; machine.iram(0x61), *psw, "PSW after {text}");
        assert!(rt; events.is_empty(), "{text} shows an event");
    }
    Ok(())
}

/// Checks what each program leaves in internal RAM.
pub fn check_memory(
    rt: &impl Abort,
    alloc: Global,
    cases: &[(&str, &[u8], &[(u8, u8)])],
) -> Result<(), Fail> {
    for (text, program, bytes) in cases {
        let (machine, _) = finish(rt, alloc, program, &[])?;
        for (address, byte) in *bytes {
            assert_eq!(rt; machine.iram(*address), *byte, "{address} after {text}");
        }
    }
    Ok(())
}
