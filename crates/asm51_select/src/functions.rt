//! The items of functions, and of the start.

ghost use Rattle.std.specs.Prelude.{◌≡◌, ◌++◌, map, IfOk};
ghost use Rattle.rtl.specs.Code.Views.{item_of};
ghost use Rattle.rtl.specs.Items as Item;
ghost use Rattle.rtl.specs.WellFormed.{gathered};
ghost use Rattle.asm51_select.specs.Translation.{plains, item_code, function_code, functions_code, byte_code, start_code};

use crate::access::take;
use crate::operations::{add_all, add_op};
use asm51::{Asm, AsmItem};
use cerco_base::{Label, NoMemory};
use mcs51_isa::{Instr, Move, ReturnKind};
use rtl::{Lin, LinItem, Place, Src};

/// The direct address of the stack pointer.
const SP: u8 = 0x81;

/// The stack pointer of an empty stack, which begins at 80H.
const STACK_BASE: u8 = 0x7F;

/// The offset of a jump to itself.
const TO_ITSELF: u8 = 0xFE;

// Adds the mark of a label, and the NOP to which it belongs.
fn add_label(asm: &mut Asm, label: Label) -> Result<(), NoMemory>
    ensures { IfOk result (λ _. asm.new ≡ asm.old ++ item_code 0 (Item.Label label)) }
{
    asm.push(AsmItem::Mark(label))?;
    asm.push(AsmItem::Plain(Instr::Nop))
}

// Adds a test of a place.
fn add_test(asm: &mut Asm, function: u32, place: Place, node: u32) -> Result<(), NoMemory>
    ensures { IfOk result (λ _. asm.new ≡ asm.old ++ item_code function (Item.Test place node)) }
{
    asm.push(AsmItem::Plain(take(Src::At(place))))?;
    asm.push(AsmItem::Test(function, node))
}

// Adds an item of a function.
fn add_item(asm: &mut Asm, function: u32, item: &LinItem) -> Result<(), NoMemory>
    ensures { IfOk result (λ _. asm.new ≡ asm.old ++ item_code function (item_of item.now)) }
{
    match item {
        LinItem::Here(node) => asm.push(AsmItem::Here(function, *node)),
        LinItem::Op(op) => add_op(asm, op),
        LinItem::Label(label) => add_label(asm, *label),
        LinItem::Jump(node) => asm.push(AsmItem::Jump(function, *node)),
        LinItem::Test(place, node) => add_test(asm, function, *place, *node),
        LinItem::Call(callee) => asm.push(AsmItem::Call(*callee)),
        LinItem::Return => asm.push(AsmItem::Plain(Instr::Ret(ReturnKind::FromCall))),
    }
}

// Adds a function: its entry, and then its items.
fn add_function(asm: &mut Asm, function: u32, lin: &Lin) -> Result<(), NoMemory>
    ensures { IfOk result (λ _. asm.new ≡ asm.old ++ function_code function (map item_of lin.now)) }
{
    asm.push(AsmItem::Enter(function))?;
    for item in lin.as_slice() {
        add_item(asm, function, item)?;
    }
    Ok(())
}

/// Adds the functions by their numbers.
pub fn add_functions(asm: &mut Asm, lins: &[Lin]) -> Result<(), NoMemory>
    ensures { IfOk result (λ _. asm.new ≡ asm.old ++ functions_code 0 (map (map item_of) lins.now)) }
{
    let Ok(count) = u32::try_from(lins.len()) else {
        return Err(NoMemory);
    };
    for function in 0..count {
        add_function(asm, function, &lins[function as usize])?;
    }
    Ok(())
}

// Adds the initialisation of the bytes of external RAM.
fn add_bytes(asm: &mut Asm, bytes: &[(u16, u8)]) -> Result<(), NoMemory>
    ensures { IfOk result (λ _. asm.new ≡ asm.old ++ plains (gathered byte_code bytes.now)) }
{
    for (address, byte) in bytes {
        add_all(
            asm,
            &[
                Instr::MovDptr(*address),
                Instr::MovAccImmediate(*byte),
                Instr::MovxDptr(Move::FromAcc),
            ],
        )?;
    }
    Ok(())
}

/// Adds the start: it sets the stack pointer and the initialised bytes, calls `main`, and ends.
pub fn add_start(asm: &mut Asm, bytes: &[(u16, u8)], main: u32) -> Result<(), NoMemory>
    ensures { IfOk result (λ _. asm.new ≡ asm.old ++ start_code bytes.now main) }
{
    asm.push(AsmItem::Plain(Instr::MovDirectImmediate(SP, STACK_BASE)))?;
    add_bytes(asm, bytes)?;
    asm.push(AsmItem::Call(main))?;
    asm.push(AsmItem::Plain(Instr::Sjmp(TO_ITSELF)))
}
