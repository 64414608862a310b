//! Functions.
ghost use Rattle.std.specs.Prelude.{◌≡◌, IfOk, OnOk, map, ◌<◌, ◌^◌, length, slice_get};
ghost use Rattle.c_types.specs.Types.{type_of};
ghost use Rattle.cerco_middle.specs.Code.Views.{expr_of as cm_of, stmt_of as cm_stmt_of, stmts_of as cm_stmts_of, function_of as cm_function_of};
ghost use Rattle.clight_syntax.specs.Code.TypedViews.{function_of, local_of, local_initialiser_of, program_of, variable_of};
ghost use Rattle.cminor_gen.specs.Translation.Statements as s;

use crate::expressions::value;
use crate::operators::held_of;
use crate::statements::{add_statements, boxed, sequence};
use crate::variables::{scalar_in, variable_type};
use c_types::Ty;
use cerco_base::{Label, NoMemory};
use cerco_middle::{CmExpr, CmFunction, CmFunctions, CmStmt, Held, HeldList};
use clight_syntax::typed::{Function, Home, Local, LocalInitialiser, TypedProgram, Variable};
use std::alloc::Global;

// How the scalars among some variables are held.
fn held_scalars(alloc: Global, variables: &[Variable]) -> Result<HeldList, NoMemory>
    ensures { IfOk result (λ r. r.items ≡ s.held_scalars (map variable_of variables.now)) }
{
    let mut held = Vec::new(alloc);
    for variable in variables {
        if variable.ty.is_scalar() {
            held.push(held_of(&variable.ty))?;
        }
    }
    Ok(held)
}

// A scalar with a number is stored in its block, where it lives in one.
#[tactic(auto, using(crate::proofs::Rows::one_more))]
fn add_home(
    alloc: Global,
    variable: &Variable,
    number: u32,
    list: &mut Vec<CmStmt>,
) -> Result<(), NoMemory>
    ensures { OnOk result (cm_stmts_of list.new.items ≡ s.home_after variable.now.home (type_of variable.now.ty) variable.now.address number (cm_stmts_of list.old.items)) }
{
    match variable.home {
        Home::Block(_) => {
            let store = boxed(
                alloc,
                CmStmt::Store {
                    held: held_of(&variable.ty),
                    address: CmExpr::Const(variable.address),
                    value: CmExpr::Var(number),
                },
            )?;
            list.push(Box::into_inner(store))?;
            Ok(())
        }
        Home::Global(_) => Ok(()),
        Home::Scalar(_) => Ok(()),
    }
}

// The same for each of these variables.
fn add_homes(alloc: Global, variables: &[Variable], list: &mut Vec<CmStmt>) -> Result<(), NoMemory>
    ensures { OnOk result (cm_stmts_of list.new.items ≡ s.homes_after (map variable_of variables.now) 0 (cm_stmts_of list.old.items)) }
{
    let mut number = 0_u32;
    for variable in variables {
        if variable.ty.is_scalar() {
            add_home(alloc, variable, number, list)?;
            let Some(next) = number.checked_add(1) else {
                return Err(NoMemory);
            };
            number = next;
        }
    }
    Ok(())
}

// How the variable with a number is held, in two bytes where there is none.
fn variable_held(program: &TypedProgram<Label>, number: u32) -> Held
    ensures { result ≡ s.variable_held (program_of program.now) number }
{
    match variable_type(program, number) {
        Some(ty) => held_of(ty),
        None => Held::W16,
    }
}

// A value is assigned to the variable with a number.
fn variable_assignment(
    alloc: Global,
    program: &TypedProgram<Label>,
    number: u32,
    value: CmExpr,
) -> Result<Box<CmStmt>, NoMemory>
    ensures { IfOk result (λ r. cm_stmt_of r.value ≡ s.variable_assignment (program_of program.now) number (cm_of value)) }
{
    match scalar_in(program, number) {
        Some(scalar) => boxed(alloc, CmStmt::Set(scalar, value)),
        None => boxed(
            alloc,
            CmStmt::Store {
                held: variable_held(program, number),
                address: CmExpr::Const(program.address(number)),
                value,
            },
        ),
    }
}

// The initialiser of a local, the variable with a number.
#[tactic(auto, using(crate::proofs::Rows::one_more))]
fn add_initialiser(
    alloc: Global,
    program: &TypedProgram<Label>,
    number: u32,
    initialiser: &LocalInitialiser,
    list: &mut Vec<CmStmt>,
) -> Result<(), NoMemory>
    ensures { OnOk result (cm_stmts_of list.new.items ≡ s.initialiser_after (program_of program.now) number (local_initialiser_of initialiser.now) (cm_stmts_of list.old.items)) }
{
    match initialiser {
        LocalInitialiser::Nothing => Ok(()),
        LocalInitialiser::Value(_, e) => {
            let e = value(alloc, program, e)?;
            let assignment = variable_assignment(alloc, program, number, e)?;
            list.push(Box::into_inner(assignment))?;
            Ok(())
        }
    }
}

// The initialisers of locals, which are variables from a number on.
fn add_initialisers(
    alloc: Global,
    program: &TypedProgram<Label>,
    locals: &[Local],
    first: u32,
    list: &mut Vec<CmStmt>,
) -> Result<(), NoMemory>
    ensures { OnOk result (cm_stmts_of list.new.items ≡ s.initialisers_after (program_of program.now) (map local_of locals.now) first (cm_stmts_of list.old.items)) }
{
    let mut number = first;
    for local in locals {
        add_initialiser(alloc, program, number, &local.initialiser, list)?;
        let Some(next) = number.checked_add(1) else {
            return Err(NoMemory);
        };
        number = next;
    }
    Ok(())
}

// How a result is held, if there is one.
fn result_of(ty: &Ty) -> Option<Held>
    ensures { result ≡ s.result_of (type_of ty.now) }
{
    if ty.is_scalar() {
        Some(held_of(ty))
    } else {
        None
    }
}

// The body of a function, after what its declarations do.
fn body(
    alloc: Global,
    program: &TypedProgram<Label>,
    f: &Function<Label>,
) -> Result<Box<CmStmt>, NoMemory>
    ensures { IfOk result (λ r. cm_stmt_of r.value ≡ s.body (program_of program.now) (function_of f.now)) }
{
    let mut list = Vec::new(alloc);
    add_homes(alloc, f.own_variables(&program.variables), &mut list)?;
    let Some(first) = f.first_variable.checked_add(f.parameters) else {
        return Err(NoMemory);
    };
    add_initialisers(alloc, program, &f.locals, first, &mut list)?;
    add_statements(alloc, program, &f.body, &mut list)?;
    sequence(alloc, list)
}

// A function.
fn function(
    alloc: Global,
    program: &TypedProgram<Label>,
    f: &Function<Label>,
) -> Result<CmFunction, NoMemory>
    ensures { IfOk result (λ r. cm_function_of r ≡ s.function (program_of program.now) (function_of f.now)) }
{
    let held = held_scalars(alloc, f.own_variables(&program.variables))?;
    let body = body(alloc, program, f)?;
    Ok(CmFunction {
        held,
        params: f.parameters,
        result: result_of(&f.result),
        label: f.label,
        body: Box::into_inner(body),
    })
}

/// The functions of a program, by their numbers.
pub fn functions(alloc: Global, program: &TypedProgram<Label>) -> Result<CmFunctions, NoMemory>
    ensures { IfOk result (λ r. map cm_function_of r.items ≡ map (s.function (program_of program.now)) (program_of program.now).functions) }
{
    let mut functions = Vec::new(alloc);
    for f in &program.functions {
        functions.push(function(alloc, program, f)?)?;
    }
    Ok(functions)
}
