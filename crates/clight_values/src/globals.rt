//! The globals, as they begin.
ghost use Rattle.std.specs.Prelude.{◌≡◌, ℕ, ◌++◌, [], OnOk, slice_get};
ghost use Rattle.c_types.specs.Types.{type_of};
ghost use Rattle.clight_source.specs.Code.Views.{initialiser_of};
ghost use Rattle.clight_values.specs.Memory as m;
ghost use Rattle.clight_values.specs.Globals as g;
ghost use Rattle.clight_values.specs.Code.Views.{cells_held, kinds_held, memory_held, structs_held};

use crate::integer::{converted, difference};
use crate::lookup::item_at;
use crate::memory::{Cell, Memory, initial, push_cells};
use crate::value::{Block, Value};
use c_types::{IntegerType, StructType, Ty};
use cerco_base::NoMemory;
use clight_source::tree::{Initialiser, SignedNumber};
use clight_syntax::literal_type;
use std::alloc::Global;

/// The bits of a number, perhaps with a `-` before it.
fn signed_bits(number: SignedNumber) -> u32
    ensures { result ≡ g.signed_bits number }
{
    match number.minus {
        None => number.number.value,
        Some(_) => difference(literal_type(number.number), 0, number.number.value),
    }
}

/// The first value of a scalar by a number.
fn given(ty: &Ty, number: SignedNumber) -> Value
    ensures { result ≡ g.given (type_of ty.now) number }
{
    match IntegerType::of(ty) {
        None => initial(ty),
        Some(target) => {
            let source = literal_type(number.number);
            Value::Integer(converted(source, target, signed_bits(number)))
        }
    }
}

fn first_value(ty: &Ty, number: Option<SignedNumber>) -> Value
    ensures { result ≡ g.first_value (type_of ty.now) number }
{
    match number {
        None => initial(ty),
        Some(number) => given(ty, number),
    }
}

/// A number of an initialiser, counted from 0.
fn number_at(initialiser: &Initialiser, i: usize) -> Option<SignedNumber>
    ensures { result ≡ slice_get (g.numbers_of (initialiser_of initialiser.now)) i }
{
    match initialiser {
        Initialiser::Nothing => None,
        Initialiser::Single(_, number) => { if i == 0 { Some(*number) } else { None } }
        Initialiser::Listed(_, _, earlier, last, _) => {
            if i == earlier.len() {
                return Some(*last);
            }
            match item_at(earlier, i) {
                None => None,
                Some(found) => Some(found.number),
            }
        }
    }
}

impl<'a> Memory<'a> {
    /// Adds these cells with the first values that an initialiser gives them.
    fn push_filled(&mut self, unset: &[Cell<'a>], initialiser: &Initialiser) -> Result<(), NoMemory>
        ensures { OnOk result (memory_held self.new ≡ record { cells = cells_held self.old.cells.items ++ g.filled (kinds_held unset.now) (g.numbers_of (initialiser_of initialiser.now)) 0; blocks = self.old.blocks.items }) }
    {
        let mut next = 0;
        for cell in unset {
            match cell.kind {
                None => self.cells.push(Cell {
                    kind: None,
                    value: None,
                })?,
                Some(ty) => {
                    let value = first_value(ty, number_at(initialiser, next));
                    next += 1;
                    self.cells.push(Cell {
                        kind: Some(ty),
                        value: Some(value),
                    })?;
                }
            }
        }
        Ok(())
    }

    /// A global without a byte becomes a block.
    #[tactic(auto, using(crate::proofs::Filling::empty_is))]
    pub fn begin_empty(&mut self) -> Result<(), NoMemory>
        ensures { OnOk result (memory_held self.new ≡ m.with_block 0 [] (memory_held self.old)) }
    {
        let begin = self.cells.len();
        self.blocks.push(Block {
            call: 0,
            begin,
            size: 0,
        })?;
        Ok(())
    }

    /// A global becomes a block, with its first values.
    pub fn begin_global(
        &mut self,
        alloc: Global,
        structs: &'a [StructType],
        ty: &'a Ty,
        initialiser: &Initialiser,
    ) -> Result<(), NoMemory>
        ensures { OnOk result (memory_held self.new ≡ m.with_block 0 (g.filled (m.kinds_of (structs_held structs.now) (type_of ty.now)) (g.numbers_of (initialiser_of initialiser.now)) 0) (memory_held self.old)) }
    {
        let mut unset = Vec::new(alloc);
        push_cells(&mut unset, structs, structs.len(), ty)?;
        let begin = self.cells.len();
        self.push_filled(&unset, initialiser)?;
        let Ok(size) = u32::try_from(unset.len()) else {
            return Err(NoMemory);
        };
        self.blocks.push(Block {
            call: 0,
            begin,
            size,
        })?;
        Ok(())
    }
}
