//! What a step does at each address of a code, worked out once.
ghost use Rattle.std.specs.Prelude.{◌≡◌, ◌<◌, ℕ, Some, IfOk, length, nat_eq, slice_get};
ghost use Rattle.std.specs.List.{IsDistinct};
ghost use Rattle.mcs51_isa.specs.Decoding.{with_length};
ghost use Rattle.sim51.specs.Step.{instr_at, next_address, halts, label_at};
ghost use Rattle.sim51.specs.Code.Slots.{slot_by, slot_of, AreSlots};

use crate::code::byte_at;
use cerco_base::{Label, NoMemory};
use mcs51_isa::{Instr, LongJump, cycles, decode, length, relative_target};
use std::alloc::Global;

/// An instruction, with what doesn't depend on the machine's state.
#[derive(Clone, Copy)]
pub(crate) struct Planned {
    pub(crate) instr: Instr,
    /// The address of the next instruction.
    pub(crate) next: u16,
    pub(crate) cycles: u8,
    /// The label at the instruction's address.
    pub(crate) label: Option<Label>,
}

/// What a step does at an address.
#[derive(Clone, Copy)]
pub(crate) enum Slot {
    /// A jump to itself stands here.
    Halt,
    /// The reserved opcode stands here.
    Reserved,
    /// This instruction is made.
    Runs(Planned),
}

fn instr_at(code: &[u8], at: u16) -> Option<(Instr, u8)>
    ensures { result ≡ with_length (instr_at code.now at) }
{
    decode([
        byte_at(code, at),
        byte_at(code, at.wrapping_add(1)),
        byte_at(code, at.wrapping_add(2)),
    ])
}

fn halts(instr: Instr, next: u16, at: u16) -> bool
    requires { next ≡ next_address at instr }
    ensures { result ≡ halts instr at }
{
    match instr {
        Instr::Sjmp(offset) => relative_target(next, offset) == at,
        Instr::Long(LongJump::Ljmp, target) => target == at,
        Instr::Ajmp(target) => target.target(next) == at,
        _ => false,
    }
}

fn slot_at(code: &[u8], label: Option<Label>, at: u16) -> Slot
    ensures { result ≡ slot_by (instr_at code.now at) label at }
{
    let Some((instr, length)) = instr_at(code, at) else {
        return Slot::Reserved;
    };
    let next = at.wrapping_add(length as u16);
    if halts(instr, next, at) {
        return Slot::Halt;
    }
    Slot::Runs(Planned {
        instr,
        next,
        cycles: cycles(instr),
        label,
    })
}

/// The label at each address.
fn label_table(alloc: Global, labels: &[u16]) -> Result<Vec<Option<Label>>, NoMemory>
    requires { IsDistinct nat_eq labels.now }
    ensures count { IfOk result (λ table. length table.items ≡ 65536) }
    ensures each { IfOk result (λ table. (a : ℕ) → a < 65536 → slice_get table.items a ≡ Some (label_at labels.now a)) }
{
    let mut table = vec![in alloc; None; 65536]?;
    for (number, at) in labels.iter().enumerate() {
        table[*at as usize] = Some(Label(number as u16));
    }
    Ok(table)
}

/// What a step does at each address.
pub(crate) fn slots(alloc: Global, code: &[u8], labels: &[u16]) -> Result<Vec<Slot>, NoMemory>
    requires { IsDistinct nat_eq labels.now }
    ensures { IfOk result (λ slots. AreSlots code.now labels.now slots.items) }
{
    let table = label_table(alloc, labels)?;
    let mut slots = Vec::with_capacity(alloc, table.len())?;
    for (at, label) in table.iter().enumerate() {
        slots.push(slot_at(code, *label, at as u16))?;
    }
    Ok(slots)
}
