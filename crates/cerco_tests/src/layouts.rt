//! The layout of a program, which stays the same when the program gives its labels back and gets them again.

use crate::labels::points_text;
use crate::sources::{RING, labelled};
use cerco_base::{Fault, Label, NoMemory};
use clight_syntax::Labelled;
use clight_syntax::typed::{Home, TypedProgram, Variable};
use cost_labels::{label, unlabel};
use std::alloc::Global;
use std::process::Abort;

fn home_text(alloc: Global, home: Home) -> Result<String, NoMemory> {
    match home {
        Home::Global(number) => Ok(format!(in alloc; "global {number}")?),
        Home::Block(number) => Ok(format!(in alloc; "block {number}")?),
        Home::Scalar(number) => Ok(format!(in alloc; "scalar {number}")?),
    }
}

// The variables, each with the number of its name, its home, its address and a line end.
fn variables_text(alloc: Global, variables: &[Variable]) -> Result<String, NoMemory> {
    let mut text = String::new(alloc);
    for variable in variables {
        let home = home_text(alloc, variable.home)?;
        let name = variable.name.number;
        let line = format!(in alloc; "{name} {home} at {}\n", variable.address)?;
        text.push_str(&line)?;
    }
    Ok(text)
}

// What a program with labels has beside its functions.
fn program_text(alloc: Global, program: &TypedProgram<Label>) -> Result<String, NoMemory> {
    let lists = format!(in alloc;
        "{} names, {} items, frames {:?}, calls {:?}",
        program.names.len(),
        program.items.len(),
        program.frames.as_slice(),
        program.call_order().functions()
    )?;
    let numbers = format!(in alloc;
        "text {} to {}, main {}, data {}",
        program.span.from,
        program.span.to,
        program.main,
        program.data()
    )?;
    Ok(format!(in alloc; "{lists}\n{numbers}\n")?)
}

// What it has beside its functions, its variables, and its annotations.
fn labelled_text(alloc: Global, labelled: &Labelled) -> Result<String, NoMemory> {
    let program = program_text(alloc, &labelled.program)?;
    let variables = variables_text(alloc, labelled.program.variables.as_slice())?;
    let points = points_text(alloc, labelled.points.as_slice())?;
    Ok(format!(in alloc; "{program}{variables}{points}")?)
}

// The same after the labels were taken away and given again.
fn again_text(alloc: Global, labelled: &Labelled) -> Result<String, NoMemory> {
    let again = label(alloc, unlabel(alloc, labelled)?)?;
    labelled_text(alloc, &again)
}

fn see_again(rt: &impl Abort, alloc: Global, labelled: &Labelled) -> Result<(), NoMemory> {
    let once = labelled_text(alloc, labelled)?;
    let again = again_text(alloc, labelled)?;
    assert_eq!(rt; again.as_str(), once.as_str());
    Ok(())
}

#[test]
fn labels_are_given_and_taken_away(rt: HostRuntime) -> Result<(), Fault> {
    let program = labelled(rt.alloc(), RING)?;
    match see_again(&rt, rt.alloc(), &program) {
        Ok(()) => Ok(()),
        Err(NoMemory) => Err(Fault::OutOfMemory),
    }
}

const OF_RING: &str = "0 global 0 at 1
1 global 1 at 33
2 global 2 at 34
3 global 3 at 35
4 global 4 at 36
5 global 5 at 38
6 global 6 at 39
8 scalar 0 at 0
8 scalar 0 at 0
8 scalar 0 at 0
11 scalar 1 at 0
8 scalar 0 at 0
";

// Whether the frames and the order of calls are those of the ring buffer. Which of `put` and `get` comes first is free.
fn is_laid_out(program: &TypedProgram<Label>) -> bool {
    let order = program.call_order().functions();
    program.data() == 39
        && program.frames.as_slice() == [40; 5].as_slice()
        && order.len() == 5
        && order.starts_with(&[4, 3, 2])
}

fn see_ring(rt: &impl Abort, alloc: Global, labelled: &Labelled) -> Result<(), NoMemory> {
    assert!(rt; is_laid_out(&labelled.program));
    let variables = variables_text(alloc, labelled.program.variables.as_slice())?;
    assert_eq!(rt; variables.as_str(), OF_RING);
    Ok(())
}

#[test]
fn a_program_is_laid_out(rt: HostRuntime) -> Result<(), Fault> {
    let program = labelled(rt.alloc(), RING)?;
    match see_ring(&rt, rt.alloc(), &program) {
        Ok(()) => Ok(()),
        Err(NoMemory) => Err(Fault::OutOfMemory),
    }
}
