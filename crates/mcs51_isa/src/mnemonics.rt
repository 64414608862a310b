//! The mnemonics of instructions.

ghost use Rattle.std.specs.Prelude.{◌≡◌, ◌≤◌, length};
ghost use Rattle.mcs51_isa.specs.Table.{entry_of};

use crate::instr::{
    Adjustment, BitChange, BitTest, ByOne, CarryOp, FlagTest, Instr, Logic, LongJump, MulDiv,
    ReturnKind, Rotate, StackOp, SumOp, Whole,
};

/// The mnemonic of an instruction, of 2 to 5 letters.
pub fn mnemonic(i: Instr) -> &'static str
    ensures value { result.now ≡ (entry_of i).mnemonic }
    ensures short { length result.now ≤ 5 }
{
    match i {
        Instr::Nop => "NOP",
        Instr::Ajmp(_) => "AJMP",
        Instr::Acall(_) => "ACALL",
        Instr::Long(op, _) => op.mnemonic(),
        Instr::Ret(op) => op.mnemonic(),
        Instr::RotateAcc(op) => op.mnemonic(),
        Instr::StepAcc(op) => op.mnemonic(),
        Instr::StepDirect(op, _) => op.mnemonic(),
        Instr::StepIndirect(op, _) => op.mnemonic(),
        Instr::StepRegister(op, _) => op.mnemonic(),
        Instr::BranchBit(op, _, _) => op.mnemonic(),
        Instr::BranchFlag(op, _) => op.mnemonic(),
        Instr::Sjmp(_) => "SJMP",
        Instr::ArithImmediate(op, _) => op.mnemonic(),
        Instr::ArithDirect(op, _) => op.mnemonic(),
        Instr::ArithIndirect(op, _) => op.mnemonic(),
        Instr::ArithRegister(op, _) => op.mnemonic(),
        Instr::LogicDirectAcc(op, _) => op.mnemonic(),
        Instr::LogicDirectImmediate(op, _, _) => op.mnemonic(),
        Instr::LogicImmediate(op, _) => op.mnemonic(),
        Instr::LogicDirect(op, _) => op.mnemonic(),
        Instr::LogicIndirect(op, _) => op.mnemonic(),
        Instr::LogicRegister(op, _) => op.mnemonic(),
        Instr::CarryLogic(op, _) => op.mnemonic(),
        Instr::JmpIndirect => "JMP",
        Instr::MovAccImmediate(_) => "MOV",
        Instr::MovDirectImmediate(_, _) => "MOV",
        Instr::MovIndirectImmediate(_, _) => "MOV",
        Instr::MovRegisterImmediate(_, _) => "MOV",
        Instr::Movc(_) => "MOVC",
        Instr::Multiplier(op) => op.mnemonic(),
        Instr::MovDirectDirect { .. } => "MOV",
        Instr::MovDirectIndirect(_, _) => "MOV",
        Instr::MovDirectRegister(_, _) => "MOV",
        Instr::MovDptr(_) => "MOV",
        Instr::MovBitCarry(_) => "MOV",
        Instr::MovCarryBit(_) => "MOV",
        Instr::IncDptr => "INC",
        Instr::MovIndirectDirect(_, _) => "MOV",
        Instr::MovRegisterDirect(_, _) => "MOV",
        Instr::ChangeBit(op, _) => op.mnemonic(),
        Instr::ChangeCarry(op) => op.mnemonic(),
        Instr::CjneImmediate(_, _) => "CJNE",
        Instr::CjneDirect(_, _) => "CJNE",
        Instr::CjneIndirect(_, _, _) => "CJNE",
        Instr::CjneRegister(_, _, _) => "CJNE",
        Instr::Stack(op, _) => op.mnemonic(),
        Instr::Adjust(op) => op.mnemonic(),
        Instr::XchDirect(_) => "XCH",
        Instr::XchIndirect(_) => "XCH",
        Instr::XchRegister(_) => "XCH",
        Instr::Xchd(_) => "XCHD",
        Instr::DjnzDirect(_, _) => "DJNZ",
        Instr::DjnzRegister(_, _) => "DJNZ",
        Instr::MovxDptr(_) => "MOVX",
        Instr::MovxIndirect(_, _) => "MOVX",
        Instr::WholeAcc(op) => op.mnemonic(),
        Instr::MovDirect(_, _) => "MOV",
        Instr::MovIndirect(_, _) => "MOV",
        Instr::MovRegister(_, _) => "MOV",
    }
}

impl LongJump {
    ghost use Rattle.std.specs.Prelude.{◌≡◌, ◌≤◌, length};
    ghost use Rattle.mcs51_isa.specs.Operators.{long_jump_mnemonic};

    pub(crate) fn mnemonic(self) -> &'static str
        ensures value { result.now ≡ long_jump_mnemonic self }
        ensures short { length result.now ≤ 5 }
    {
        match self {
            LongJump::Ljmp => "LJMP",
            LongJump::Lcall => "LCALL",
        }
    }
}

impl ReturnKind {
    ghost use Rattle.std.specs.Prelude.{◌≡◌, ◌≤◌, length};
    ghost use Rattle.mcs51_isa.specs.Operators.{return_mnemonic};

    pub(crate) fn mnemonic(self) -> &'static str
        ensures value { result.now ≡ return_mnemonic self }
        ensures short { length result.now ≤ 5 }
    {
        match self {
            ReturnKind::FromCall => "RET",
            ReturnKind::FromInterrupt => "RETI",
        }
    }
}

impl Rotate {
    ghost use Rattle.std.specs.Prelude.{◌≡◌, ◌≤◌, length};
    ghost use Rattle.mcs51_isa.specs.Operators.{rotate_mnemonic};

    pub(crate) fn mnemonic(self) -> &'static str
        ensures value { result.now ≡ rotate_mnemonic self }
        ensures short { length result.now ≤ 5 }
    {
        match self {
            Rotate::Rr => "RR",
            Rotate::Rrc => "RRC",
            Rotate::Rl => "RL",
            Rotate::Rlc => "RLC",
        }
    }
}

impl ByOne {
    ghost use Rattle.std.specs.Prelude.{◌≡◌, ◌≤◌, length};
    ghost use Rattle.mcs51_isa.specs.Operators.{by_one_mnemonic};

    pub(crate) fn mnemonic(self) -> &'static str
        ensures value { result.now ≡ by_one_mnemonic self }
        ensures short { length result.now ≤ 5 }
    {
        match self {
            ByOne::Inc => "INC",
            ByOne::Dec => "DEC",
        }
    }
}

impl BitTest {
    ghost use Rattle.std.specs.Prelude.{◌≡◌, ◌≤◌, length};
    ghost use Rattle.mcs51_isa.specs.Operators.{bit_test_mnemonic};

    pub(crate) fn mnemonic(self) -> &'static str
        ensures value { result.now ≡ bit_test_mnemonic self }
        ensures short { length result.now ≤ 5 }
    {
        match self {
            BitTest::Jbc => "JBC",
            BitTest::Jb => "JB",
            BitTest::Jnb => "JNB",
        }
    }
}

impl FlagTest {
    ghost use Rattle.std.specs.Prelude.{◌≡◌, ◌≤◌, length};
    ghost use Rattle.mcs51_isa.specs.Operators.{flag_test_mnemonic};

    pub(crate) fn mnemonic(self) -> &'static str
        ensures value { result.now ≡ flag_test_mnemonic self }
        ensures short { length result.now ≤ 5 }
    {
        match self {
            FlagTest::Jc => "JC",
            FlagTest::Jnc => "JNC",
            FlagTest::Jz => "JZ",
            FlagTest::Jnz => "JNZ",
        }
    }
}

impl SumOp {
    ghost use Rattle.std.specs.Prelude.{◌≡◌, ◌≤◌, length};
    ghost use Rattle.mcs51_isa.specs.Operators.{sum_mnemonic};

    pub(crate) fn mnemonic(self) -> &'static str
        ensures value { result.now ≡ sum_mnemonic self }
        ensures short { length result.now ≤ 5 }
    {
        match self {
            SumOp::Add => "ADD",
            SumOp::Addc => "ADDC",
            SumOp::Subb => "SUBB",
        }
    }
}

impl Logic {
    ghost use Rattle.std.specs.Prelude.{◌≡◌, ◌≤◌, length};
    ghost use Rattle.mcs51_isa.specs.Operators.{logic_mnemonic};

    pub(crate) fn mnemonic(self) -> &'static str
        ensures value { result.now ≡ logic_mnemonic self }
        ensures short { length result.now ≤ 5 }
    {
        match self {
            Logic::Orl => "ORL",
            Logic::Anl => "ANL",
            Logic::Xrl => "XRL",
        }
    }
}

impl CarryOp {
    ghost use Rattle.std.specs.Prelude.{◌≡◌, ◌≤◌, length};
    ghost use Rattle.mcs51_isa.specs.Operators.{carry_mnemonic};

    pub(crate) fn mnemonic(self) -> &'static str
        ensures value { result.now ≡ carry_mnemonic self }
        ensures short { length result.now ≤ 5 }
    {
        match self {
            CarryOp::OrlBit => "ORL",
            CarryOp::AnlBit => "ANL",
            CarryOp::OrlNotBit => "ORL",
            CarryOp::AnlNotBit => "ANL",
        }
    }
}

impl MulDiv {
    ghost use Rattle.std.specs.Prelude.{◌≡◌, ◌≤◌, length};
    ghost use Rattle.mcs51_isa.specs.Operators.{mul_div_mnemonic};

    pub(crate) fn mnemonic(self) -> &'static str
        ensures value { result.now ≡ mul_div_mnemonic self }
        ensures short { length result.now ≤ 5 }
    {
        match self {
            MulDiv::DivAb => "DIV",
            MulDiv::MulAb => "MUL",
        }
    }
}

impl BitChange {
    ghost use Rattle.std.specs.Prelude.{◌≡◌, ◌≤◌, length};
    ghost use Rattle.mcs51_isa.specs.Operators.{change_mnemonic};

    pub(crate) fn mnemonic(self) -> &'static str
        ensures value { result.now ≡ change_mnemonic self }
        ensures short { length result.now ≤ 5 }
    {
        match self {
            BitChange::Cpl => "CPL",
            BitChange::Clr => "CLR",
            BitChange::Setb => "SETB",
        }
    }
}

impl StackOp {
    ghost use Rattle.std.specs.Prelude.{◌≡◌, ◌≤◌, length};
    ghost use Rattle.mcs51_isa.specs.Operators.{stack_mnemonic};

    pub(crate) fn mnemonic(self) -> &'static str
        ensures value { result.now ≡ stack_mnemonic self }
        ensures short { length result.now ≤ 5 }
    {
        match self {
            StackOp::Push => "PUSH",
            StackOp::Pop => "POP",
        }
    }
}

impl Adjustment {
    ghost use Rattle.std.specs.Prelude.{◌≡◌, ◌≤◌, length};
    ghost use Rattle.mcs51_isa.specs.Operators.{adjustment_mnemonic};

    pub(crate) fn mnemonic(self) -> &'static str
        ensures value { result.now ≡ adjustment_mnemonic self }
        ensures short { length result.now ≤ 5 }
    {
        match self {
            Adjustment::Swap => "SWAP",
            Adjustment::Da => "DA",
        }
    }
}

impl Whole {
    ghost use Rattle.std.specs.Prelude.{◌≡◌, ◌≤◌, length};
    ghost use Rattle.mcs51_isa.specs.Operators.{whole_mnemonic};

    pub(crate) fn mnemonic(self) -> &'static str
        ensures value { result.now ≡ whole_mnemonic self }
        ensures short { length result.now ≤ 5 }
    {
        match self {
            Whole::ClearAcc => "CLR",
            Whole::ComplementAcc => "CPL",
        }
    }
}
