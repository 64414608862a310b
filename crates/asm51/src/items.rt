//! The items of an assembly program.
ghost use Rattle.std.specs.Prelude.{◌≡◌, ◌++◌, ◌∷◌, [], OnOk, OnErr};

use cerco_base::{Label, NoMemory};
use mcs51_isa::Instr;
use std::alloc::Global;
use std::marker::Model;

/// An item of an assembly program. Functions have numbers, and so have the nodes of a function.
#[derive(Clone, Copy)]
pub enum AsmItem {
    /// An instruction.
    Plain(Instr),
    /// The mark of a label, which stands before the NOP of the label.
    Mark(Label),
    /// The entry of a function.
    Enter(u32),
    /// The place of a function's node.
    Here(u32, u32),
    /// A jump to the place of a function's node.
    Jump(u32, u32),
    /// A jump to the place of a function's node where the accumulator isn't 0.
    Test(u32, u32),
    /// A call of a function.
    Call(u32),
}

/// An assembly program: items, of which the first is the one that runs first. Contracts see it as the list of its items.
#[derive(Drop)]
pub struct Asm {
    items: Vec<AsmItem>,
}

impl Model for Asm {
    ghost use Rattle.std.specs.Prelude.{List};
    ghost use Rattle.asm51.specs.declared.items.AsmItem.{AsmItem};

    ghost Value = { List AsmItem };

    ghost view = { λ a. a.items.items };
}

impl Asm {
    /// No items.
    pub fn new(alloc: Global) -> Asm
        ensures { result ≡ [] }
    {
        Asm {
            items: Vec::new(alloc),
        }
    }

    /// Adds an item at the end. When out of memory, the program is unchanged.
    pub fn push(&mut self, item: AsmItem) -> Result<(), NoMemory>
        ensures added { OnOk result (self.new ≡ self.old ++ item ∷ []) }
        ensures same { OnErr result (self.new ≡ self.old) }
    {
        self.items.push(item)?;
        Ok(())
    }

    /// Its items.
    pub fn as_slice(&self) -> &[AsmItem]
        ensures { result.now ≡ self.now }
    {
        self.items.as_slice()
    }
}
