//! The instructions of the MCS-51, one variant for those of a group that have the same operands.

use crate::operands::{Addr11, Ind, Reg};

/// A jump or call with a whole address.
#[derive(Clone, Copy)]
pub enum LongJump {
    Ljmp,
    Lcall,
}

/// A return from a call or from an interrupt.
#[derive(Clone, Copy)]
pub enum ReturnKind {
    /// `RET`
    FromCall,
    /// `RETI`
    FromInterrupt,
}

/// A rotation of A by one bit. `Rrc` and `Rlc` turn it through the carry.
#[derive(Clone, Copy)]
pub enum Rotate {
    Rr,
    Rrc,
    Rl,
    Rlc,
}

/// A change by one.
#[derive(Clone, Copy)]
pub enum ByOne {
    Inc,
    Dec,
}

/// The test of a jump on a bit. `Jbc` clears the bit where it jumps.
#[derive(Clone, Copy)]
pub enum BitTest {
    Jbc,
    Jb,
    Jnb,
}

/// The test of a jump on the carry or on A.
#[derive(Clone, Copy)]
pub enum FlagTest {
    Jc,
    Jnc,
    Jz,
    Jnz,
}

/// A sum or difference in A. `Addc` and `Subb` take the carry in.
#[derive(Clone, Copy)]
pub enum SumOp {
    Add,
    Addc,
    Subb,
}

/// A logical operation on bytes.
#[derive(Clone, Copy)]
pub enum Logic {
    Orl,
    Anl,
    Xrl,
}

/// A logical operation of the carry and a bit, or of the carry and the complement of a bit.
#[derive(Clone, Copy)]
pub enum CarryOp {
    OrlBit,
    AnlBit,
    OrlNotBit,
    AnlNotBit,
}

/// What MOVC adds A to.
#[derive(Clone, Copy)]
pub enum TableBase {
    Pc,
    Dptr,
}

/// A product or quotient of A and B.
#[derive(Clone, Copy)]
pub enum MulDiv {
    DivAb,
    MulAb,
}

/// A change of a bit.
#[derive(Clone, Copy)]
pub enum BitChange {
    Cpl,
    Clr,
    Setb,
}

/// A move to or from the stack.
#[derive(Clone, Copy)]
pub enum StackOp {
    Push,
    Pop,
}

/// A change of A by its digits of four bits: they change places, or a sum is made decimal.
#[derive(Clone, Copy)]
pub enum Adjustment {
    Swap,
    Da,
}

/// The direction of a move: into A, or from A.
#[derive(Clone, Copy)]
pub enum Move {
    IntoAcc,
    FromAcc,
}

/// A change of A as a whole.
#[derive(Clone, Copy)]
pub enum Whole {
    ClearAcc,
    ComplementAcc,
}

/// An instruction with its operands, which stand in the order of its bytes. In the texts below
/// `dir` is a direct address, `bit` a bit address, `rel` an offset from the next instruction,
/// `#d` and `#d16` an immediate byte and word.
#[derive(Clone, Copy)]
pub enum Instr {
    /// `NOP`
    Nop,
    /// `AJMP addr11`
    Ajmp(Addr11),
    /// `ACALL addr11`
    Acall(Addr11),
    /// `LJMP addr16`, `LCALL addr16`
    Long(LongJump, u16),
    /// `RET`, `RETI`
    Ret(ReturnKind),
    /// `RR A`, `RRC A`, `RL A`, `RLC A`
    RotateAcc(Rotate),
    /// `INC A`, `DEC A`
    StepAcc(ByOne),
    /// `INC dir`, `DEC dir`
    StepDirect(ByOne, u8),
    /// `INC @Ri`, `DEC @Ri`
    StepIndirect(ByOne, Ind),
    /// `INC Rn`, `DEC Rn`
    StepRegister(ByOne, Reg),
    /// `JBC bit,rel`, `JB bit,rel`, `JNB bit,rel`
    BranchBit(BitTest, u8, u8),
    /// `JC rel`, `JNC rel`, `JZ rel`, `JNZ rel`
    BranchFlag(FlagTest, u8),
    /// `SJMP rel`
    Sjmp(u8),
    /// `ADD A,#d`, `ADDC A,#d`, `SUBB A,#d`
    ArithImmediate(SumOp, u8),
    /// `ADD A,dir`, `ADDC A,dir`, `SUBB A,dir`
    ArithDirect(SumOp, u8),
    /// `ADD A,@Ri`, `ADDC A,@Ri`, `SUBB A,@Ri`
    ArithIndirect(SumOp, Ind),
    /// `ADD A,Rn`, `ADDC A,Rn`, `SUBB A,Rn`
    ArithRegister(SumOp, Reg),
    /// `ORL dir,A`, `ANL dir,A`, `XRL dir,A`
    LogicDirectAcc(Logic, u8),
    /// `ORL dir,#d`, `ANL dir,#d`, `XRL dir,#d`
    LogicDirectImmediate(Logic, u8, u8),
    /// `ORL A,#d`, `ANL A,#d`, `XRL A,#d`
    LogicImmediate(Logic, u8),
    /// `ORL A,dir`, `ANL A,dir`, `XRL A,dir`
    LogicDirect(Logic, u8),
    /// `ORL A,@Ri`, `ANL A,@Ri`, `XRL A,@Ri`
    LogicIndirect(Logic, Ind),
    /// `ORL A,Rn`, `ANL A,Rn`, `XRL A,Rn`
    LogicRegister(Logic, Reg),
    /// `ORL C,bit`, `ANL C,bit`, `ORL C,/bit`, `ANL C,/bit`
    CarryLogic(CarryOp, u8),
    /// `JMP @A+DPTR`
    JmpIndirect,
    /// `MOV A,#d`
    MovAccImmediate(u8),
    /// `MOV dir,#d`
    MovDirectImmediate(u8, u8),
    /// `MOV @Ri,#d`
    MovIndirectImmediate(Ind, u8),
    /// `MOV Rn,#d`
    MovRegisterImmediate(Reg, u8),
    /// `MOVC A,@A+PC`, `MOVC A,@A+DPTR`
    Movc(TableBase),
    /// `DIV AB`, `MUL AB`
    Multiplier(MulDiv),
    /// `MOV dir,dir`. The text has the target first, the bytes have the source first.
    MovDirectDirect { source: u8, target: u8 },
    /// `MOV dir,@Ri`
    MovDirectIndirect(u8, Ind),
    /// `MOV dir,Rn`
    MovDirectRegister(u8, Reg),
    /// `MOV DPTR,#d16`
    MovDptr(u16),
    /// `MOV bit,C`
    MovBitCarry(u8),
    /// `MOV C,bit`
    MovCarryBit(u8),
    /// `INC DPTR`
    IncDptr,
    /// `MOV @Ri,dir`
    MovIndirectDirect(Ind, u8),
    /// `MOV Rn,dir`
    MovRegisterDirect(Reg, u8),
    /// `CPL bit`, `CLR bit`, `SETB bit`
    ChangeBit(BitChange, u8),
    /// `CPL C`, `CLR C`, `SETB C`
    ChangeCarry(BitChange),
    /// `CJNE A,#d,rel`
    CjneImmediate(u8, u8),
    /// `CJNE A,dir,rel`
    CjneDirect(u8, u8),
    /// `CJNE @Ri,#d,rel`
    CjneIndirect(Ind, u8, u8),
    /// `CJNE Rn,#d,rel`
    CjneRegister(Reg, u8, u8),
    /// `PUSH dir`, `POP dir`
    Stack(StackOp, u8),
    /// `SWAP A`, `DA A`
    Adjust(Adjustment),
    /// `XCH A,dir`
    XchDirect(u8),
    /// `XCH A,@Ri`
    XchIndirect(Ind),
    /// `XCH A,Rn`
    XchRegister(Reg),
    /// `XCHD A,@Ri`
    Xchd(Ind),
    /// `DJNZ dir,rel`
    DjnzDirect(u8, u8),
    /// `DJNZ Rn,rel`
    DjnzRegister(Reg, u8),
    /// `MOVX A,@DPTR`, `MOVX @DPTR,A`
    MovxDptr(Move),
    /// `MOVX A,@Ri`, `MOVX @Ri,A`
    MovxIndirect(Move, Ind),
    /// `CLR A`, `CPL A`
    WholeAcc(Whole),
    /// `MOV A,dir`, `MOV dir,A`
    MovDirect(Move, u8),
    /// `MOV A,@Ri`, `MOV @Ri,A`
    MovIndirect(Move, Ind),
    /// `MOV A,Rn`, `MOV Rn,A`
    MovRegister(Move, Reg),
}
