//! Why an address has no cost.

use thiserror::Error;

/// Why an address has no cost. Addresses are those of instructions.
#[derive(Clone, Copy, Debug, Error)]
pub enum CostFault {
    /// A way of 65,536 instructions has no end. The next one would be here.
    #[error("no label follows: the way is at address {at} after 65,536 instructions")]
    NoLabel { at: u16 },
    /// The conditional jump here parts two ways of different cycles: `a` where it doesn't jump, and `b` where it does.
    #[error("after the jump at address {at} the ways take {a} and {b} cycles")]
    Unequal { at: u16, a: u32, b: u32 },
    /// The reserved opcode stands here.
    #[error("the reserved opcode stands at address {at}")]
    Reserved { at: u16 },
    /// `JMP @A+DPTR` stands here, whose target only the registers tell.
    #[error("the target of the jump at address {at} is not known")]
    NoTarget { at: u16 },
    /// A second conditional jump of one way stands here.
    #[error("the jump at address {at} is the second conditional one of a way")]
    Second { at: u16 },
}
