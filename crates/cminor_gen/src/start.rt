//! The bytes that the initialisers of globals give external RAM.
ghost use Rattle.std.specs.Prelude.{◌≡◌, ℕ, ◌++◌, ◌%◌, List, IfOk, OnOk, slice_get};
ghost use Rattle.c_types.specs.Types.{type_of};
ghost use Rattle.clight_source.specs.Code.Views.{initialiser_of};
ghost use Rattle.clight_syntax.specs.Code.TypedViews.{item_of, program_of};
ghost use Rattle.clight_values.specs.Globals as g;
ghost use Rattle.clight_values.specs.Code.Views.{type_held};
ghost use Rattle.cminor_gen.specs.Translation.Start as s;

use crate::variables::variable_type;
use c_types::{IntegerType, Size, Ty};
use cerco_base::{Label, NoMemory, StartBytes};
use clight_source::tree::{Initialiser, SignedNumber};
use clight_syntax::literal_type;
use clight_syntax::typed::{Item, TypedProgram};
use clight_values::integer::{converted, difference};
use std::alloc::Global;

// A number of an initialiser, counted from 0.
fn number_at(initialiser: &Initialiser, i: usize) -> Option<SignedNumber>
    ensures { result ≡ slice_get (g.numbers_of (initialiser_of initialiser.now)) i }
{
    match initialiser {
        Initialiser::Nothing => None,
        Initialiser::Single(_, number) => { if i == 0 { Some(*number) } else { None } }
        Initialiser::Listed(_, _, earlier, last, _) => {
            if i == earlier.len() {
                return Some(*last);
            }
            match earlier.get(i) {
                None => None,
                Some(found) => Some(found.number),
            }
        }
    }
}

// The bits of a number, perhaps with a `-` before it.
fn signed_bits(number: SignedNumber) -> u32
    ensures { result ≡ g.signed_bits number }
{
    match number.minus {
        None => number.number.value,
        Some(_) => difference(literal_type(number.number), 0, number.number.value),
    }
}

// The bits of an integer's first value.
fn first_bits(ty: IntegerType, number: Option<SignedNumber>) -> u32
    ensures { result ≡ s.first_bits ty number }
{
    match number {
        None => 0,
        Some(number) => converted(literal_type(number.number), ty, signed_bits(number)),
    }
}

fn bytes(size: Size) -> u8
    ensures { result ≡ s.bytes size }
{
    match size {
        Size::One => 1,
        Size::Two => 2,
        Size::Four => 4,
    }
}

// Adds so many bytes of a number, from an address on.
fn add_bytes(count: u8, address: u16, bits: u32, start: &mut StartBytes) -> Result<(), NoMemory>
    ensures { OnOk result (start.new ≡ start.old ++ s.bytes_from count address bits) }
{
    if count == 0 {
        return Ok(());
    }
    start.push(address, (bits % 0x100) as u8)?;
    add_bytes(count - 1, address.wrapping_add(1), bits / 0x100, start)
}

// Adds the bytes of so many integers, from an address on.
fn add_integers(
    ty: IntegerType,
    initialiser: &Initialiser,
    count: u32,
    address: u16,
    start: &mut StartBytes,
) -> Result<(), NoMemory>
    ensures { OnOk result (start.new ≡ start.old ++ s.integers_from ty (g.numbers_of (initialiser_of initialiser.now)) count 0 address) }
{
    let size = bytes(ty.size);
    let mut at = address;
    for i in 0..count {
        let number = number_at(initialiser, i as usize);
        add_bytes(size, at, first_bits(ty, number), start)?;
        at = at.wrapping_add(u16::from(size));
    }
    Ok(())
}

fn add_integers_if_any(
    ty: Option<IntegerType>,
    initialiser: &Initialiser,
    count: u32,
    address: u16,
    start: &mut StartBytes,
) -> Result<(), NoMemory>
    ensures { OnOk result (start.new ≡ start.old ++ s.integers_if_any ty (g.numbers_of (initialiser_of initialiser.now)) count address) }
{
    match ty {
        None => Ok(()),
        Some(ty) => add_integers(ty, initialiser, count, address, start),
    }
}

// Adds the bytes of a global of a type, from an address on.
fn add_global(
    ty: &Ty,
    initialiser: &Initialiser,
    address: u16,
    start: &mut StartBytes,
) -> Result<(), NoMemory>
    ensures { OnOk result (start.new ≡ start.old ++ s.global_bytes (type_of ty.now) (g.numbers_of (initialiser_of initialiser.now)) address) }
{
    match ty {
        Ty::Array(element, count) => {
            add_integers_if_any(
                IntegerType::of(element),
                initialiser,
                *count,
                address,
                start,
            )
        }
        _ => add_integers_if_any(IntegerType::of(ty), initialiser, 1, address, start),
    }
}

fn is_initialised(initialiser: &Initialiser) -> bool
    ensures { result ≡ s.is_initialised (initialiser_of initialiser.now) }
{
    !matches!(initialiser, Initialiser::Nothing)
}

// Adds the bytes of an item.
fn add_item(
    program: &TypedProgram<Label>,
    item: &Item,
    start: &mut StartBytes,
) -> Result<(), NoMemory>
    ensures { OnOk result (start.new ≡ start.old ++ s.item_bytes (program_of program.now) (item_of item.now)) }
{
    match item {
        Item::Global(global, number) => {
            if !is_initialised(&global.initialiser) {
                return Ok(());
            }
            match variable_type(program, *number) {
                None => Ok(()),
                Some(ty) => { add_global(ty, &global.initialiser, program.address(*number), start) }
            }
        }
        Item::Struct(_) => Ok(()),
        Item::Prototype(_) => Ok(()),
        Item::Function(_) => Ok(()),
    }
}

/// The bytes of the initialised globals of a program, by rising address.
pub fn start_bytes(alloc: Global, program: &TypedProgram<Label>) -> Result<StartBytes, NoMemory>
    ensures { IfOk result (λ r. r ≡ s.items_bytes (program_of program.now) (program_of program.now).items) }
{
    let mut start = StartBytes::new(alloc);
    for item in &program.items {
        add_item(program, item, &mut start)?;
    }
    Ok(start)
}
