//! The opcodes of the operators: of one that takes several kinds of operands the first opcode of
//! its row of the opcode map, of any other its opcode.

use crate::instr::{
    Adjustment, BitChange, BitTest, ByOne, CarryOp, FlagTest, Logic, LongJump, Move, MulDiv,
    ReturnKind, Rotate, StackOp, SumOp, TableBase, Whole,
};

impl LongJump {
    ghost use Rattle.std.specs.Prelude.{◌≡◌};
    ghost use Rattle.mcs51_isa.specs.Operators.{long_jump_opcode};

    pub(crate) fn opcode(self) -> u8
        ensures { result ≡ long_jump_opcode self }
    {
        match self {
            LongJump::Ljmp => 0x02,
            LongJump::Lcall => 0x12,
        }
    }
}

impl ReturnKind {
    ghost use Rattle.std.specs.Prelude.{◌≡◌};
    ghost use Rattle.mcs51_isa.specs.Operators.{return_opcode};

    pub(crate) fn opcode(self) -> u8
        ensures { result ≡ return_opcode self }
    {
        match self {
            ReturnKind::FromCall => 0x22,
            ReturnKind::FromInterrupt => 0x32,
        }
    }
}

impl Rotate {
    ghost use Rattle.std.specs.Prelude.{◌≡◌};
    ghost use Rattle.mcs51_isa.specs.Operators.{rotate_opcode};

    pub(crate) fn opcode(self) -> u8
        ensures { result ≡ rotate_opcode self }
    {
        match self {
            Rotate::Rr => 0x03,
            Rotate::Rrc => 0x13,
            Rotate::Rl => 0x23,
            Rotate::Rlc => 0x33,
        }
    }
}

impl ByOne {
    ghost use Rattle.std.specs.Prelude.{◌≡◌, ◌≤◌};
    ghost use Rattle.mcs51_isa.specs.Operators.{by_one_row};

    pub(crate) fn row(self) -> u8
        ensures value { result ≡ by_one_row self }
        ensures below { result ≤ 0xF0 }
    {
        match self {
            ByOne::Inc => 0x00,
            ByOne::Dec => 0x10,
        }
    }
}

impl BitTest {
    ghost use Rattle.std.specs.Prelude.{◌≡◌};
    ghost use Rattle.mcs51_isa.specs.Operators.{bit_test_opcode};

    pub(crate) fn opcode(self) -> u8
        ensures { result ≡ bit_test_opcode self }
    {
        match self {
            BitTest::Jbc => 0x10,
            BitTest::Jb => 0x20,
            BitTest::Jnb => 0x30,
        }
    }
}

impl FlagTest {
    ghost use Rattle.std.specs.Prelude.{◌≡◌};
    ghost use Rattle.mcs51_isa.specs.Operators.{flag_test_opcode};

    pub(crate) fn opcode(self) -> u8
        ensures { result ≡ flag_test_opcode self }
    {
        match self {
            FlagTest::Jc => 0x40,
            FlagTest::Jnc => 0x50,
            FlagTest::Jz => 0x60,
            FlagTest::Jnz => 0x70,
        }
    }
}

impl SumOp {
    ghost use Rattle.std.specs.Prelude.{◌≡◌, ◌≤◌};
    ghost use Rattle.mcs51_isa.specs.Operators.{sum_row};

    pub(crate) fn row(self) -> u8
        ensures value { result ≡ sum_row self }
        ensures below { result ≤ 0xF0 }
    {
        match self {
            SumOp::Add => 0x20,
            SumOp::Addc => 0x30,
            SumOp::Subb => 0x90,
        }
    }
}

impl Logic {
    ghost use Rattle.std.specs.Prelude.{◌≡◌, ◌≤◌};
    ghost use Rattle.mcs51_isa.specs.Operators.{logic_row};

    pub(crate) fn row(self) -> u8
        ensures value { result ≡ logic_row self }
        ensures below { result ≤ 0xF0 }
    {
        match self {
            Logic::Orl => 0x40,
            Logic::Anl => 0x50,
            Logic::Xrl => 0x60,
        }
    }
}

impl CarryOp {
    ghost use Rattle.std.specs.Prelude.{◌≡◌};
    ghost use Rattle.mcs51_isa.specs.Operators.{carry_opcode};

    pub(crate) fn opcode(self) -> u8
        ensures { result ≡ carry_opcode self }
    {
        match self {
            CarryOp::OrlBit => 0x72,
            CarryOp::AnlBit => 0x82,
            CarryOp::OrlNotBit => 0xA0,
            CarryOp::AnlNotBit => 0xB0,
        }
    }
}

impl TableBase {
    ghost use Rattle.std.specs.Prelude.{◌≡◌};
    ghost use Rattle.mcs51_isa.specs.Operators.{table_base_opcode};

    pub(crate) fn opcode(self) -> u8
        ensures { result ≡ table_base_opcode self }
    {
        match self {
            TableBase::Pc => 0x83,
            TableBase::Dptr => 0x93,
        }
    }
}

impl MulDiv {
    ghost use Rattle.std.specs.Prelude.{◌≡◌};
    ghost use Rattle.mcs51_isa.specs.Operators.{mul_div_opcode};

    pub(crate) fn opcode(self) -> u8
        ensures { result ≡ mul_div_opcode self }
    {
        match self {
            MulDiv::DivAb => 0x84,
            MulDiv::MulAb => 0xA4,
        }
    }
}

impl BitChange {
    ghost use Rattle.std.specs.Prelude.{◌≡◌, ◌≤◌};
    ghost use Rattle.mcs51_isa.specs.Operators.{change_row};

    pub(crate) fn row(self) -> u8
        ensures value { result ≡ change_row self }
        ensures below { result ≤ 0xF0 }
    {
        match self {
            BitChange::Cpl => 0xB0,
            BitChange::Clr => 0xC0,
            BitChange::Setb => 0xD0,
        }
    }
}

impl StackOp {
    ghost use Rattle.std.specs.Prelude.{◌≡◌};
    ghost use Rattle.mcs51_isa.specs.Operators.{stack_opcode};

    pub(crate) fn opcode(self) -> u8
        ensures { result ≡ stack_opcode self }
    {
        match self {
            StackOp::Push => 0xC0,
            StackOp::Pop => 0xD0,
        }
    }
}

impl Adjustment {
    ghost use Rattle.std.specs.Prelude.{◌≡◌};
    ghost use Rattle.mcs51_isa.specs.Operators.{adjustment_opcode};

    pub(crate) fn opcode(self) -> u8
        ensures { result ≡ adjustment_opcode self }
    {
        match self {
            Adjustment::Swap => 0xC4,
            Adjustment::Da => 0xD4,
        }
    }
}

impl Move {
    ghost use Rattle.std.specs.Prelude.{◌≡◌, ◌≤◌};
    ghost use Rattle.mcs51_isa.specs.Operators.{move_row};

    pub(crate) fn row(self) -> u8
        ensures value { result ≡ move_row self }
        ensures below { result ≤ 0xF0 }
    {
        match self {
            Move::IntoAcc => 0xE0,
            Move::FromAcc => 0xF0,
        }
    }
}

impl Whole {
    ghost use Rattle.std.specs.Prelude.{◌≡◌};
    ghost use Rattle.mcs51_isa.specs.Operators.{whole_opcode};

    pub(crate) fn opcode(self) -> u8
        ensures { result ≡ whole_opcode self }
    {
        match self {
            Whole::ClearAcc => 0xE4,
            Whole::ComplementAcc => 0xF4,
        }
    }
}
