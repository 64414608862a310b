//! What `compile` makes of a source.
ghost use Rattle.std.specs.Prelude.{◌≡◌, ◌<◌, Some, length, slice_get};
ghost use Rattle.clight_syntax.specs.Code.TypedViews.{labelled_of};

use asm51::{Asm, JumpLayout};
use back_end::Assembled;
use clight_syntax::{Labelled, Points};
use ltl_alloc::Allocation;
use rtl::{Bytes, LinProgram, Vreg};

/// A compiled source: its labelled program, the values from which the back end made its object, and the exact costs of that.
#[derive(Drop)]
pub struct Compiled {
    /// The program with its cost labels.
    pub labelled: Box<Labelled>,
    /// The object, and the values from which it was made.
    pub assembled: Assembled,
    /// The cost of the start, in machine cycles.
    pub start: u32,
    /// The cost of each label, by its number, in machine cycles.
    pub costs: Vec<u32>,
}

impl Compiled {
    /// The program with its cost labels.
    pub fn labelled(&self) -> &Labelled
        ensures { result.now ≡ self.now.labelled.value }
    {
        &self.labelled
    }

    /// The annotations of the source.
    pub fn points(&self) -> &Points
        ensures { result.now ≡ self.now.labelled.value.points }
    {
        &self.labelled.points
    }

    /// The program over virtual registers.
    pub fn ertl(&self) -> &Bytes<Vreg>
        ensures { result.now ≡ self.now.assembled.ertl }
    {
        &self.assembled.ertl
    }

    /// Where the virtual registers of a function are kept.
    pub fn allocation(&self, function: u32) -> &Allocation
        requires { function < length self.now.assembled.allocations }
        ensures { slice_get self.now.assembled.allocations function ≡ Some result.now }
    {
        &self.assembled.allocations.as_slice()[function as usize]
    }

    /// The linear code.
    pub fn lin(&self) -> &LinProgram
        ensures { result.now ≡ self.now.assembled.lin }
    {
        &self.assembled.lin
    }

    /// The assembly program.
    pub fn asm(&self) -> &Asm
        ensures { result.now ≡ self.now.assembled.asm }
    {
        &self.assembled.asm
    }

    /// The forms of its jumps, and the addresses of its items.
    pub fn layout(&self) -> &JumpLayout
        ensures { result.now ≡ self.now.assembled.layout }
    {
        &self.assembled.layout
    }

    /// The object code, from address 0 on.
    pub fn code(&self) -> &[u8]
        ensures { result.now ≡ self.now.assembled.object.code }
    {
        self.assembled.object.code.as_slice()
    }

    /// The address of each label, by its number.
    pub fn labels(&self) -> &[u16]
        ensures { result.now ≡ self.now.assembled.object.labels }
    {
        self.assembled.object.labels.as_slice()
    }

    /// The cost of the start, in machine cycles.
    pub fn start(&self) -> u32
        ensures { result ≡ self.now.start }
    {
        self.start
    }

    /// The cost of each label, by its number, in machine cycles.
    pub fn costs(&self) -> &[u32]
        ensures { result.now ≡ self.now.costs.items }
    {
        self.costs.as_slice()
    }

    /// The bytes of the globals and of the largest frames of a call path, 65,534 at most.
    pub fn data(&self) -> u16
        ensures { result ≡ (labelled_of self.now.labelled.value).data_bytes }
    {
        self.labelled.data()
    }

    /// How many cells of internal RAM the program needs, 112 at most.
    pub fn cells(&self) -> u8
        ensures { result ≡ self.now.assembled.bases.need }
    {
        self.assembled.bases.need
    }
}
