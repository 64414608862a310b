//! The names of declarations and of whole programs.
ghost use Rattle.std.specs.Prelude.{◌≡◌, ◌++◌, ℕ, [], map, IfOk, OnOk};
ghost use Rattle.std.specs.List.{flat_map};
ghost use Rattle.clight_source.specs.Code.Views.{declared_of, member_of, struct_of, earlier_parameter_of, parameters_of, header_of, local_initialiser_of, local_of, function_of, item_of, program_of};
ghost use Rattle.clight_names.specs.Occurrences.{is_plain as is_plain_lem, declared_names, member_names, struct_names, local_declared, earlier_parameter_names, parameters_names, header_names, first_value_names, local_names, function_names, item_names, names_from, all_names};

use crate::expressions::add_expr;
use crate::occurrences::{Occurrence, Role, add_name, add_words};
use crate::statements::add_stmts;
use cerco_base::NoMemory;
use clight_source::tree::{
    Declared, EarlierParameter, Function, Header, Item, Local, LocalInitialiser, Member,
    Parameters, Program, Specifiers, StructDefinition,
};
use std::alloc::Global;

// Adds the tag of a type and the declared name, among the members of a struct or elsewhere.
#[tactic(auto, using(crate::proofs::Appending::two_added))]
fn add_declared(
    names: &mut Vec<Occurrence>,
    around: Option<u32>,
    role: Role,
    x: &Declared,
) -> Result<(), NoMemory>
    ensures { OnOk result (names.new.items ≡ names.old.items ++ declared_names around role (declared_of x.now)) }
{
    add_words(names, !x.stars.is_empty(), around, x.specifiers)?;
    add_name(names, x.name, role)
}

// Adds the names of the members of the struct that is this item.
fn add_members(
    names: &mut Vec<Occurrence>,
    item: usize,
    tag: u32,
    members: &[Member],
) -> Result<(), NoMemory>
    ensures { OnOk result (names.new.items ≡ names.old.items ++ flat_map (member_names item tag) (map member_of members.now)) }
{
    for member in members {
        let declared = &member.declaration.declared;
        add_declared(names, Some(tag), Role::DeclaresMember(item), declared)?;
    }
    Ok(())
}

// Adds the names of the struct that is this item.
#[tactic(auto, using(crate::proofs::Appending::one_before))]
fn add_struct(
    names: &mut Vec<Occurrence>,
    item: usize,
    x: &StructDefinition,
) -> Result<(), NoMemory>
    ensures { OnOk result (names.new.items ≡ names.old.items ++ struct_names item (struct_of x.now)) }
{
    add_name(names, x.tag, Role::DefinesTag)?;
    add_members(names, item, x.tag.number, x.members.as_slice())
}

// Whether a function has the form `void f(void)`.
fn is_plain(x: &Header) -> bool
    ensures { result ≡ is_plain_lem (header_of x.now) }
{
    matches!(x.declared.specifiers, Specifiers::Void(_))
        && x.declared.stars.is_empty()
        && matches!(x.parameters, Parameters::Void(_))
}

// Adds the names of all parameters but the last.
fn add_earlier_parameters(
    names: &mut Vec<Occurrence>,
    item: usize,
    parameters: &[EarlierParameter],
) -> Result<(), NoMemory>
    ensures { OnOk result (names.new.items ≡ names.old.items ++ flat_map (earlier_parameter_names item) (map earlier_parameter_of parameters.now)) }
{
    for parameter in parameters {
        add_declared(names, None, Role::DeclaresLocal(item), &parameter.parameter)?;
    }
    Ok(())
}

// Adds the names of the parameters of the function that is this item.
#[tactic(auto, using(crate::proofs::Appending::two_added))]
fn add_parameters(
    names: &mut Vec<Occurrence>,
    item: usize,
    parameters: &Parameters,
) -> Result<(), NoMemory>
    ensures { OnOk result (names.new.items ≡ names.old.items ++ parameters_names item (parameters_of parameters.now)) }
{
    match parameters {
        Parameters::Void(_) => Ok(()),
        Parameters::Listed(earlier, last) => {
            add_earlier_parameters(names, item, earlier.as_slice())?;
            add_declared(names, None, Role::DeclaresLocal(item), last)
        }
    }
}

// Adds the names of a function's result, of its own, and of its parameters.
#[tactic(auto, using(crate::proofs::Appending::two_added))]
fn add_header(
    names: &mut Vec<Occurrence>,
    item: usize,
    role: Role,
    x: &Header,
) -> Result<(), NoMemory>
    ensures { OnOk result (names.new.items ≡ names.old.items ++ header_names item role (header_of x.now)) }
{
    add_declared(names, None, role, &x.declared)?;
    add_parameters(names, item, &x.parameters)
}

// Adds the names of a local and of its first value.
#[tactic(auto, using(crate::proofs::Appending::two_added))]
fn add_local(names: &mut Vec<Occurrence>, item: usize, x: &Local) -> Result<(), NoMemory>
    ensures { OnOk result (names.new.items ≡ names.old.items ++ local_names item (local_of x.now)) }
{
    let declared = &x.declaration.declared;
    add_declared(names, None, Role::DeclaresLocal(item), declared)?;
    match &x.initialiser {
        LocalInitialiser::Nothing => Ok(()),
        LocalInitialiser::Value(_, value) => add_expr(names, item, value),
    }
}

// Adds the names of locals.
fn add_locals(names: &mut Vec<Occurrence>, item: usize, locals: &[Local]) -> Result<(), NoMemory>
    ensures { OnOk result (names.new.items ≡ names.old.items ++ flat_map (local_names item) (map local_of locals.now)) }
{
    for local in locals {
        add_local(names, item, local)?;
    }
    Ok(())
}

// Adds the names of the function that is this item.
#[tactic(auto, using(crate::proofs::Appending::three_added))]
fn add_function(names: &mut Vec<Occurrence>, item: usize, x: &Function) -> Result<(), NoMemory>
    ensures { OnOk result (names.new.items ≡ names.old.items ++ function_names item (function_of x.now)) }
{
    let plain = is_plain(&x.header);
    add_header(names, item, Role::DefinesFunction(plain), &x.header)?;
    add_locals(names, item, x.locals.as_slice())?;
    add_stmts(names, item, x.body.as_slice())
}

// Adds the names of an item.
fn add_item(names: &mut Vec<Occurrence>, item: usize, x: &Item) -> Result<(), NoMemory>
    ensures { OnOk result (names.new.items ≡ names.old.items ++ item_names item (item_of x.now)) }
{
    match x {
        Item::Struct(x) => add_struct(names, item, x),
        Item::Global(x) => {
            add_declared(names, None, Role::DeclaresGlobal, &x.declaration.declared)
        }
        Item::Prototype(x) => {
            let plain = is_plain(&x.header);
            add_header(names, item, Role::DeclaresPrototype(plain), &x.header)
        }
        Item::Function(x) => add_function(names, item, x),
    }
}

/// The names of a program, in the order of the text.
pub fn names_of(alloc: Global, program: &Program) -> Result<Vec<Occurrence>, NoMemory>
    ensures { IfOk result (λ names. names.items ≡ all_names (program_of program.now)) }
{
    let mut names = Vec::new(alloc);
    for (item, x) in program.items.iter().enumerate() {
        add_item(&mut names, item, x)?;
    }
    Ok(names)
}
