//! Which instructions of a code show nothing, worked out once.
ghost use Rattle.std.specs.Prelude.{◌≡◌, IfOk, map};
ghost use Rattle.sim51.specs.Code.Quiets.{is_port, names_port, is_quiet, quiet_of};

use crate::location::{Location, bit_location, location_of};
use crate::slots::{Planned, Slot};
use cerco_base::NoMemory;
use mcs51_isa::Instr;
use std::alloc::Global;

/// An instruction that shows nothing, with what doesn't depend on the machine's state.
#[derive(Clone, Copy)]
pub(crate) struct Quiet {
    pub(crate) instr: Instr,
    /// The address of the next instruction.
    pub(crate) next: u16,
    pub(crate) cycles: u8,
}

// Whether a location is a port.
fn is_port(location: Location) -> bool
    ensures { result ≡ is_port location }
{
    matches!(location, Location::Latch(_))
}

/// Whether an instruction names a port.
pub(crate) fn names_port(instr: Instr) -> bool
    ensures { result ≡ names_port instr }
{
    match instr {
        Instr::StepDirect(_, direct)
        | Instr::ArithDirect(_, direct)
        | Instr::LogicDirectAcc(_, direct)
        | Instr::LogicDirectImmediate(_, direct, _)
        | Instr::LogicDirect(_, direct)
        | Instr::MovDirectImmediate(direct, _)
        | Instr::MovDirectIndirect(direct, _)
        | Instr::MovDirectRegister(direct, _)
        | Instr::MovIndirectDirect(_, direct)
        | Instr::MovRegisterDirect(_, direct)
        | Instr::CjneDirect(direct, _)
        | Instr::Stack(_, direct)
        | Instr::XchDirect(direct)
        | Instr::DjnzDirect(direct, _)
        | Instr::MovDirect(_, direct) => is_port(location_of(direct)),
        Instr::MovDirectDirect { source, target } => {
            is_port(location_of(source)) || is_port(location_of(target))
        }
        Instr::BranchBit(_, bit, _)
        | Instr::CarryLogic(_, bit)
        | Instr::MovBitCarry(bit)
        | Instr::MovCarryBit(bit)
        | Instr::ChangeBit(_, bit) => is_port(bit_location(bit)),
        _ => false,
    }
}

// Whether it shows nothing wherever it is made.
fn is_quiet(planned: Planned) -> bool
    ensures { result ≡ is_quiet planned }
{
    planned.label.is_none() && !names_port(planned.instr)
}

// The instruction of a slot, if it shows nothing.
fn quiet_of(slot: Slot) -> Option<Quiet>
    ensures { result ≡ quiet_of slot }
{
    match slot {
        Slot::Runs(planned) if is_quiet(planned) => Some(Quiet {
            instr: planned.instr,
            next: planned.next,
            cycles: planned.cycles,
        }),
        _ => None,
    }
}

/// The instructions that show nothing, by their addresses.
pub(crate) fn quiets(alloc: Global, slots: &[Slot]) -> Result<Vec<Option<Quiet>>, NoMemory>
    ensures { IfOk result (λ quiets. quiets.items ≡ map quiet_of slots.now) }
{
    let mut quiets = Vec::with_capacity(alloc, slots.len())?;
    for slot in slots {
        quiets.push(quiet_of(*slot))?;
    }
    Ok(quiets)
}
