//! The instruction set of the MCS-51: instructions, their bytes, cycles and assembler text.
#![tactic(auto)]

pub mod assembly;
pub mod decoding;
pub mod encoding;
pub mod instr;
mod line;
pub mod listing;
pub mod mnemonics;
mod opcodes;
pub mod operands;
pub mod targets;
pub mod timing;

pub use decoding::decode;
pub use encoding::{encode, length};
pub use instr::{
    Adjustment, BitChange, BitTest, ByOne, CarryOp, FlagTest, Instr, Logic, LongJump, Move, MulDiv,
    ReturnKind, Rotate, StackOp, SumOp, TableBase, Whole,
};
pub use listing::list_line;
pub use operands::{Addr11, Ind, Page, Reg};
pub use targets::relative_target;
pub use timing::cycles;
