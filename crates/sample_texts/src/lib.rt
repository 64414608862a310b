//! The texts of the generator: sources of the compiler, made from a seed.
#![tactic(auto)]

ghost use Rattle.std.specs.Prelude.{◌≡◌, ◌++◌, decimal, IfOk};
ghost use Rattle.sample_texts.specs.Draws.{numbers_at, state_at};
ghost use Rattle.sample_texts.specs.Texts.{each_below, function_text, functions_text, call_text, main_text, text_of};

pub mod draws;

use crate::draws::{Numbers, draw_numbers, drawn_number, next_state};
use cerco_base::NoMemory;
use itoa::Buffer;
use std::alloc::Global;

// Adds bytes and then a number in decimal.
fn put_number(text: &mut Vec<u8>, before: &[u8], number: u32) -> Result<(), NoMemory>
    ensures { IfOk result (λ _. text.new.items ≡ text.old.items ++ (before.now ++ decimal number)) }
{
    let mut digits = Buffer::new();
    text.extend_from_slice(before)?;
    text.extend_from_slice(digits.format(number).as_bytes())?;
    Ok(())
}

// Adds the line of a function.
fn put_function(text: &mut Vec<u8>, function: u32, x: Numbers) -> Result<(), NoMemory>
    ensures { IfOk result (λ _. text.new.items ≡ text.old.items ++ function_text x function) }
{
    put_number(text, b"unsigned int f", function)?;
    put_number(
        text,
        b"(unsigned int a){unsigned int b;unsigned char i;b=a;i=0;while(i<",
        x.turns,
    )?;
    put_number(text, b"){b=b+", x.added)?;
    put_number(text, b"u^", x.mixed)?;
    put_number(text, b"u;if(b&1)b=b^", x.mixed_odd)?;
    text.extend_from_slice(b"u;i=i+1;}return b;}\n")?;
    Ok(())
}

// Adds the lines of so many functions, and answers the state after their draws.
fn put_functions(text: &mut Vec<u8>, seed: u32, size: u32) -> Result<u32, NoMemory>
    ensures text { IfOk result (λ _. text.new.items ≡ text.old.items ++ functions_text seed size) }
    ensures state { IfOk result (λ r. r ≡ state_at seed size) }
{
    let mut state = seed;
    for function in 0..size {
        let (numbers, after) = draw_numbers(state);
        put_function(text, function, numbers)?;
        state = after;
    }
    Ok(state)
}

// Adds the calls of so many functions.
fn put_calls(text: &mut Vec<u8>, size: u32) -> Result<(), NoMemory>
    ensures { IfOk result (λ _. text.new.items ≡ text.old.items ++ each_below call_text size) }
{
    for function in 0..size {
        put_number(text, b"x=f", function)?;
        text.extend_from_slice(b"(x);P1=x;")?;
    }
    Ok(())
}

// Adds the line of `main`.
fn put_main(text: &mut Vec<u8>, start: u32, size: u32) -> Result<(), NoMemory>
    ensures { IfOk result (λ _. text.new.items ≡ text.old.items ++ main_text start size) }
{
    put_number(text, b"void main(void){unsigned int x;x=", start)?;
    text.extend_from_slice(b"u;")?;
    put_calls(text, size)?;
    text.extend_from_slice(b"}\n")?;
    Ok(())
}

/// The text for a seed, with so many functions.
///
/// # Errors
///
/// Out of memory.
pub fn sample_text(alloc: Global, seed: u32, size: u32) -> Result<Vec<u8>, NoMemory>
    ensures { IfOk result (λ r. r.items ≡ text_of seed size) }
{
    let mut text = Vec::new(alloc);
    let state = put_functions(&mut text, seed, size)?;
    put_main(&mut text, drawn_number(next_state(state)), size)?;
    Ok(text)
}
