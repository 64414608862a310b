//! The names of expressions.
ghost use Rattle.std.specs.Prelude.{◌≡◌, ◌++◌, map, OnOk};
ghost use Rattle.std.specs.Option.{option_map};
ghost use Rattle.std.specs.List.{flat_map};
ghost use Rattle.clight_source.specs.Code.Views.{expr_of, assignment_of, earlier_argument_of, arguments_of, call_of};
ghost use Rattle.clight_names.specs.Occurrences.{expr_names, optional_names, assignment_names, earlier_names, arguments_names, target_names, call_names};

use crate::occurrences::{Occurrence, Role, add_name, add_words};
use cerco_base::NoMemory;
use clight_source::tree::{Arguments, Assignment, Call, CallTarget, EarlierArgument, Expr};

/// Adds the names of an expression in the function that is this item.
#[tactic(auto, using(crate::proofs::Appending::two_added))]
pub fn add_expr(names: &mut Vec<Occurrence>, item: usize, e: &Expr) -> Result<(), NoMemory>
    ensures { OnOk result (names.new.items ≡ names.old.items ++ expr_names item (expr_of e.now)) }
{
    match e {
        Expr::Name(name) => add_name(names, *name, Role::Uses(item)),
        Expr::Number(_, _) => Ok(()),
        Expr::Parenthesis(_, inner, _) => add_expr(names, item, inner),
        Expr::Binary(left, _, _, right) => {
            add_expr(names, item, left)?;
            add_expr(names, item, right)
        }
        Expr::Prefix(_, _, operand) => add_expr(names, item, operand),
        Expr::Cast(_, words, _, operand) => {
            add_words(names, false, None, *words)?;
            add_expr(names, item, operand)
        }
        Expr::Index(base, _, index, _) => {
            add_expr(names, item, base)?;
            add_expr(names, item, index)
        }
        Expr::Member(base, _, _, member) => {
            add_expr(names, item, base)?;
            add_name(names, *member, Role::Selects)
        }
    }
}

/// Adds the names of an expression, if there is one.
pub fn add_optional_expr(
    names: &mut Vec<Occurrence>,
    item: usize,
    e: &Option<Expr>,
) -> Result<(), NoMemory>
    ensures { OnOk result (names.new.items ≡ names.old.items ++ optional_names (expr_names item) (option_map expr_of e.now)) }
{
    match e {
        None => Ok(()),
        Some(e) => add_expr(names, item, e),
    }
}

/// Adds the names of an assignment.
#[tactic(auto, using(crate::proofs::Appending::two_added))]
pub fn add_assignment(
    names: &mut Vec<Occurrence>,
    item: usize,
    x: &Assignment,
) -> Result<(), NoMemory>
    ensures { OnOk result (names.new.items ≡ names.old.items ++ assignment_names item (assignment_of x.now)) }
{
    add_expr(names, item, &x.target)?;
    add_expr(names, item, &x.value)
}

/// Adds the names of an assignment, if there is one.
pub fn add_optional_assignment(
    names: &mut Vec<Occurrence>,
    item: usize,
    x: &Option<Assignment>,
) -> Result<(), NoMemory>
    ensures { OnOk result (names.new.items ≡ names.old.items ++ optional_names (assignment_names item) (option_map assignment_of x.now)) }
{
    match x {
        None => Ok(()),
        Some(x) => add_assignment(names, item, x),
    }
}

// Adds the names of all arguments but the last.
fn add_earlier_arguments(
    names: &mut Vec<Occurrence>,
    item: usize,
    arguments: &[EarlierArgument],
) -> Result<(), NoMemory>
    ensures { OnOk result (names.new.items ≡ names.old.items ++ flat_map (earlier_names item) (map earlier_argument_of arguments.now)) }
{
    for argument in arguments {
        add_expr(names, item, &argument.value)?;
    }
    Ok(())
}

// Adds the names of the arguments of a call.
#[tactic(auto, using(crate::proofs::Appending::two_added))]
fn add_arguments(
    names: &mut Vec<Occurrence>,
    item: usize,
    arguments: &Arguments,
) -> Result<(), NoMemory>
    ensures { OnOk result (names.new.items ≡ names.old.items ++ arguments_names item (arguments_of arguments.now)) }
{
    match arguments {
        Arguments::Nothing => Ok(()),
        Arguments::Listed(earlier, last) => {
            add_earlier_arguments(names, item, earlier.as_slice())?;
            add_expr(names, item, last)
        }
    }
}

// Adds the name of the variable that takes the result of a call, if there is one.
fn add_target(
    names: &mut Vec<Occurrence>,
    item: usize,
    target: Option<CallTarget>,
) -> Result<(), NoMemory>
    ensures { OnOk result (names.new.items ≡ names.old.items ++ optional_names (target_names item) target) }
{
    match target {
        None => Ok(()),
        Some(target) => add_name(names, target.name, Role::Uses(item)),
    }
}

/// Adds the names of a call.
#[tactic(auto, using(crate::proofs::Appending::call_added))]
pub fn add_call(names: &mut Vec<Occurrence>, item: usize, call: &Call) -> Result<(), NoMemory>
    ensures { OnOk result (names.new.items ≡ names.old.items ++ call_names item (call_of call.now)) }
{
    add_target(names, item, call.target)?;
    add_name(names, call.function, Role::Uses(item))?;
    add_arguments(names, item, &call.arguments)
}
