//! How long instructions take.
ghost use Rattle.std.specs.Prelude.{◌≡◌};
ghost use Rattle.mcs51_isa.specs.Table.{cycles_of};

use crate::instr::Instr;

/// The machine cycles of an instruction, 1, 2 or 4. A conditional jump takes them whether it jumps or
/// not.
pub fn cycles(i: Instr) -> u8
    ensures { result ≡ cycles_of i }
{
    match i {
        Instr::Nop => 1,
        Instr::Ajmp(_) => 2,
        Instr::Acall(_) => 2,
        Instr::Long(_, _) => 2,
        Instr::Ret(_) => 2,
        Instr::RotateAcc(_) => 1,
        Instr::StepAcc(_) => 1,
        Instr::StepDirect(_, _) => 1,
        Instr::StepIndirect(_, _) => 1,
        Instr::StepRegister(_, _) => 1,
        Instr::BranchBit(_, _, _) => 2,
        Instr::BranchFlag(_, _) => 2,
        Instr::Sjmp(_) => 2,
        Instr::ArithImmediate(_, _) => 1,
        Instr::ArithDirect(_, _) => 1,
        Instr::ArithIndirect(_, _) => 1,
        Instr::ArithRegister(_, _) => 1,
        Instr::LogicDirectAcc(_, _) => 1,
        Instr::LogicDirectImmediate(_, _, _) => 2,
        Instr::LogicImmediate(_, _) => 1,
        Instr::LogicDirect(_, _) => 1,
        Instr::LogicIndirect(_, _) => 1,
        Instr::LogicRegister(_, _) => 1,
        Instr::CarryLogic(_, _) => 2,
        Instr::JmpIndirect => 2,
        Instr::MovAccImmediate(_) => 1,
        Instr::MovDirectImmediate(_, _) => 2,
        Instr::MovIndirectImmediate(_, _) => 1,
        Instr::MovRegisterImmediate(_, _) => 1,
        Instr::Movc(_) => 2,
        Instr::Multiplier(_) => 4,
        Instr::MovDirectDirect { .. } => 2,
        Instr::MovDirectIndirect(_, _) => 2,
        Instr::MovDirectRegister(_, _) => 2,
        Instr::MovDptr(_) => 2,
        Instr::MovBitCarry(_) => 2,
        Instr::MovCarryBit(_) => 1,
        Instr::IncDptr => 2,
        Instr::MovIndirectDirect(_, _) => 2,
        Instr::MovRegisterDirect(_, _) => 2,
        Instr::ChangeBit(_, _) => 1,
        Instr::ChangeCarry(_) => 1,
        Instr::CjneImmediate(_, _) => 2,
        Instr::CjneDirect(_, _) => 2,
        Instr::CjneIndirect(_, _, _) => 2,
        Instr::CjneRegister(_, _, _) => 2,
        Instr::Stack(_, _) => 2,
        Instr::Adjust(_) => 1,
        Instr::XchDirect(_) => 1,
        Instr::XchIndirect(_) => 1,
        Instr::XchRegister(_) => 1,
        Instr::Xchd(_) => 1,
        Instr::DjnzDirect(_, _) => 2,
        Instr::DjnzRegister(_, _) => 2,
        Instr::MovxDptr(_) => 2,
        Instr::MovxIndirect(_, _) => 2,
        Instr::WholeAcc(_) => 1,
        Instr::MovDirect(_, _) => 1,
        Instr::MovIndirect(_, _) => 1,
        Instr::MovRegister(_, _) => 1,
    }
}
