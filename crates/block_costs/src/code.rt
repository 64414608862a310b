//! The instructions of a code, and where they lead.
ghost use Rattle.std.specs.Prelude.{◌≡◌};
ghost use Rattle.mcs51_isa.specs.Decoding.{with_length};
ghost use Rattle.mcs51_isa.specs.Flow.{flow_of};
ghost use Rattle.sim51.specs.Effect.{code_at};
ghost use Rattle.sim51.specs.Step.{instr_at, next_address, halts};
ghost use Rattle.block_costs.specs.Ways.{has_halt, is_closed};
ghost use Rattle.block_costs.specs.Code.Walks.{flow_in};

use crate::marks::Marks;
use mcs51_isa::{Instr, LongJump, decode, relative_target};

/// Where an instruction leads.
#[derive(Clone, Copy)]
pub(crate) enum Flow {
    /// To an address.
    On(u16),
    /// To the first of two addresses, or to the second where a conditional jump jumps.
    Branch(u16, u16),
    /// Back from a call.
    Back,
    /// To an address that only the registers tell.
    Lost,
}

// A byte of the code, which is 0 past its end.
fn byte_at(code: &[u8], address: u16) -> u8
    ensures { result ≡ code_at code.now address }
{
    let at = address as usize;
    if at < code.len() { code[at] } else { 0 }
}

/// The instruction at an address and its length, unless the reserved opcode stands there.
pub(crate) fn instr_at(code: &[u8], at: u16) -> Option<(Instr, u8)>
    ensures { result ≡ with_length (instr_at code.now at) }
{
    decode([
        byte_at(code, at),
        byte_at(code, at.wrapping_add(1)),
        byte_at(code, at.wrapping_add(2)),
    ])
}

/// Where an instruction leads, by the address of the next one.
pub(crate) fn flow_of(instr: Instr, next: u16) -> Flow
    ensures { flow_in result ≡ flow_of instr next }
{
    match instr {
        Instr::Ajmp(target) => Flow::On(target.target(next)),
        Instr::Acall(target) => Flow::On(target.target(next)),
        Instr::Long(_, target) => Flow::On(target),
        Instr::Sjmp(offset) => Flow::On(relative_target(next, offset)),
        Instr::BranchBit(_, _, offset) => Flow::Branch(next, relative_target(next, offset)),
        Instr::BranchFlag(_, offset) => Flow::Branch(next, relative_target(next, offset)),
        Instr::CjneImmediate(_, offset) => Flow::Branch(next, relative_target(next, offset)),
        Instr::CjneDirect(_, offset) => Flow::Branch(next, relative_target(next, offset)),
        Instr::CjneIndirect(_, _, offset) => Flow::Branch(next, relative_target(next, offset)),
        Instr::CjneRegister(_, _, offset) => Flow::Branch(next, relative_target(next, offset)),
        Instr::DjnzDirect(_, offset) => Flow::Branch(next, relative_target(next, offset)),
        Instr::DjnzRegister(_, offset) => Flow::Branch(next, relative_target(next, offset)),
        Instr::Ret(_) => Flow::Back,
        Instr::JmpIndirect => Flow::Lost,
        _ => Flow::On(next),
    }
}

// Whether an instruction is a jump to itself.
fn halts(instr: Instr, next: u16, at: u16) -> bool
    requires { next ≡ next_address at instr }
    ensures { result ≡ halts instr at }
{
    match instr {
        Instr::Sjmp(offset) => relative_target(next, offset) == at,
        Instr::Long(LongJump::Ljmp, target) => target == at,
        Instr::Ajmp(target) => target.target(next) == at,
        _ => false,
    }
}

/// Whether a jump to itself stands at an address.
pub(crate) fn has_halt(code: &[u8], at: u16) -> bool
    ensures { result ≡ has_halt code.now at }
{
    match instr_at(code, at) {
        None => false,
        Some((instr, length)) => halts(instr, at.wrapping_add(length as u16), at),
    }
}

/// Whether ways end before an address.
pub(crate) fn is_closed(code: &[u8], marks: &Marks, at: u16) -> bool
    ensures { result ≡ is_closed code.now marks.now at }
{
    marks.is_marked(at) || has_halt(code, at)
}
