//! What the back end makes of a program.

use asm51::{Asm, JumpLayout};
use jump_expand::Object;
use ltl_alloc::{Allocation, Bases};
use rtl::{Bytes, LinProgram, Sequence, Vreg};

/// The allocation of each function, by number.
pub type Allocations = Sequence<Allocation>;

/// The object of a program, and the values from which it was made, each from those before it.
#[derive(Drop)]
pub struct Assembled {
    /// The program over virtual registers.
    pub ertl: Bytes<Vreg>,
    /// Where the virtual registers of each function are kept.
    pub allocations: Allocations,
    /// The first cell of each function, and how many cells the program needs.
    pub bases: Bases,
    /// The linear code.
    pub lin: LinProgram,
    /// The assembly program.
    pub asm: Asm,
    /// The forms of its jumps, and the addresses of its items.
    pub layout: JumpLayout,
    /// The code and the addresses of its labels.
    pub object: Object,
}
