//! Expressions and conditions.
ghost use Rattle.std.specs.Prelude.{◌≡◌, ℕ, IfOk, map, option_map, slice_get};
ghost use Rattle.cerco_middle.specs.Code.Views.{expr_of as cm_of, cond_of as cm_cond_of};
ghost use Rattle.c_types.specs.Types.{type_of};
ghost use Rattle.clight_syntax.specs.Code.TypedViews.{expr_of, cond_of, arguments_of, program_of};
ghost use Rattle.clight_syntax.specs.TypedTrees.{address_at};
ghost use Rattle.clight_meaning.specs.Meaning.{argument_list};
ghost use Rattle.cminor_gen.specs.Translation.Expressions as x;

use crate::operators::{
    Operand, as_number, bytes_of, cast_to, constant, member, operation, read_at, step, step_size,
};
use crate::variables::scalar_in;
use c_types::Ty;
use cerco_base::{Label, NoMemory};
use cerco_middle::{CmCond, CmExpr};
use clight_source::tree::{MemberOperator, PrefixOperator};
use clight_syntax::Cond;
use clight_syntax::typed::{Arguments, Expr, TypedProgram};
use std::alloc::Global;

// The value of a variable of a type.
fn variable_value(
    alloc: Global,
    program: &TypedProgram<Label>,
    ty: &Ty,
    number: u32,
) -> Result<CmExpr, NoMemory>
    ensures { IfOk result (λ e. cm_of e ≡ x.variable_value (x.scalar_in (slice_get (program_of program.now).variables number)) (type_of ty.now) (address_at (program_of program.now) number)) }
{
    match scalar_in(program, number) {
        Some(scalar) => Ok(CmExpr::Var(scalar)),
        None => read_at(alloc, ty, CmExpr::Const(program.address(number))),
    }
}

// The address of an element.
fn element(
    alloc: Global,
    program: &TypedProgram<Label>,
    ty: &Ty,
    index: &Expr,
    pointer: CmExpr,
    value: CmExpr,
) -> Result<CmExpr, NoMemory>
    ensures { IfOk result (λ e. cm_of e ≡ x.element (program_of program.now) (type_of ty.now) (expr_of index.now) (cm_of pointer) (cm_of value)) }
{
    let size = bytes_of(&program.structs, ty)?;
    step(alloc, as_number(index), size, false, pointer, value)
}

// An operator applied to its operand.
fn prefixed(
    alloc: Global,
    ty: &Ty,
    operator: PrefixOperator,
    operand: CmExpr,
) -> Result<CmExpr, NoMemory>
    ensures { IfOk result (λ r. cm_of r ≡ x.prefixed (type_of ty.now) operator (cm_of operand)) }
{
    match operator {
        PrefixOperator::Negate => Ok(CmExpr::Neg(Box::new(alloc, operand)?)),
        PrefixOperator::Complement => Ok(CmExpr::Not(Box::new(alloc, operand)?)),
        PrefixOperator::Dereference => read_at(alloc, ty, operand),
        // `!` is in conditions alone.
        PrefixOperator::AddressOf | PrefixOperator::Not => Ok(operand),
    }
}

// What a prefix operator is applied to: a value, but for an address.
#[cycle(value)]
fn operand(
    alloc: Global,
    program: &TypedProgram<Label>,
    operator: PrefixOperator,
    e: &Expr,
) -> Result<CmExpr, NoMemory>
    ensures { IfOk result (λ r. cm_of r ≡ x.operand (program_of program.now) operator (expr_of e.now)) }
{
    match operator {
        PrefixOperator::AddressOf => place(alloc, program, e),
        _ => value(alloc, program, e),
    }
}

// The address of the struct of which a member is taken.
#[cycle(value)]
fn base(
    alloc: Global,
    program: &TypedProgram<Label>,
    operator: MemberOperator,
    e: &Expr,
) -> Result<CmExpr, NoMemory>
    ensures { IfOk result (λ r. cm_of r ≡ x.base (program_of program.now) operator (expr_of e.now)) }
{
    match operator {
        MemberOperator::Dot => place(alloc, program, e),
        MemberOperator::Arrow => value(alloc, program, e),
    }
}

/// The address of a place.
#[cycle(value)]
pub fn place(alloc: Global, program: &TypedProgram<Label>, e: &Expr) -> Result<CmExpr, NoMemory>
    ensures { IfOk result (λ r. cm_of r ≡ x.place (program_of program.now) (expr_of e.now)) }
{
    match e {
        Expr::Variable(_, number, _) => Ok(CmExpr::Const(program.address(*number))),
        Expr::Parenthesis(_, _, inner, _) => place(alloc, program, inner),
        Expr::Prefix(_, PrefixOperator::Dereference, _, inner) => value(alloc, program, inner),
        Expr::Index(ty, pointer, _, index, _) => {
            let address = value(alloc, program, pointer)?;
            let by = value(alloc, program, index)?;
            element(alloc, program, ty, index, address, by)
        }
        Expr::Member(_, left, operator, _, _, offset) => {
            let address = base(alloc, program, *operator, left)?;
            member(alloc, address, *offset)
        }
        _ => Ok(CmExpr::Const(0)),
    }
}

/// The value of an expression.
#[cycle(value)]
pub fn value(alloc: Global, program: &TypedProgram<Label>, e: &Expr) -> Result<CmExpr, NoMemory>
    ensures { IfOk result (λ r. cm_of r ≡ x.value (program_of program.now) (expr_of e.now)) }
{
    match e {
        Expr::Variable(ty, number, _) => variable_value(alloc, program, ty, *number),
        Expr::Number(_, number, _) => Ok(constant(number.value)),
        Expr::Parenthesis(_, _, inner, _) => value(alloc, program, inner),
        Expr::Binary(ty, left, operator, _, right) => {
            let size = step_size(&program.structs, ty)?;
            let sides = (Operand::of(left), Operand::of(right));
            let x = value(alloc, program, left)?;
            let y = value(alloc, program, right)?;
            operation(alloc, size, *operator, sides, x, y)
        }
        Expr::Prefix(ty, operator, _, inner) => {
            let operand = operand(alloc, program, *operator, inner)?;
            prefixed(alloc, ty, *operator, operand)
        }
        Expr::Cast(ty, _, _, _, inner) => {
            let operand = value(alloc, program, inner)?;
            cast_to(alloc, ty, operand)
        }
        Expr::Index(ty, pointer, _, index, _) => {
            let address = value(alloc, program, pointer)?;
            let by = value(alloc, program, index)?;
            let address = element(alloc, program, ty, index, address, by)?;
            read_at(alloc, ty, address)
        }
        Expr::Member(ty, left, operator, _, _, offset) => {
            let address = base(alloc, program, *operator, left)?;
            let address = member(alloc, address, *offset)?;
            read_at(alloc, ty, address)
        }
    }
}

/// The values of the arguments of a call, in order.
pub fn arguments(
    alloc: Global,
    program: &TypedProgram<Label>,
    arguments: &Arguments,
) -> Result<Vec<CmExpr>, NoMemory>
    ensures { IfOk result (λ r. map cm_of r.items ≡ x.values (program_of program.now) (argument_list (arguments_of arguments.now))) }
{
    let mut values = Vec::new(alloc);
    match arguments {
        Arguments::Nothing => Ok(values),
        Arguments::Listed(earlier, last) => {
            for argument in earlier {
                values.push(value(alloc, program, &argument.value)?)?;
            }
            values.push(value(alloc, program, last)?)?;
            Ok(values)
        }
    }
}

// A condition in a box.
fn boxed(alloc: Global, c: CmCond) -> Result<Box<CmCond>, NoMemory>
    ensures { IfOk result (λ r. cm_cond_of r.value ≡ cm_cond_of c) }
{
    Ok(Box::new(alloc, c)?)
}

/// A condition.
pub fn condition(
    alloc: Global,
    program: &TypedProgram<Label>,
    c: &Cond<Label>,
) -> Result<Box<CmCond>, NoMemory>
    ensures { IfOk result (λ r. cm_cond_of r.value ≡ x.condition (program_of program.now) (cond_of c.now)) }
{
    match c {
        Cond::Value(e) => {
            let test = value(alloc, program, e)?;
            boxed(alloc, CmCond::Test(test))
        }
        Cond::Parenthesis(_, inner, _) => condition(alloc, program, inner),
        Cond::Not(_, inner) => {
            let inner = condition(alloc, program, inner)?;
            boxed(alloc, CmCond::Not(inner))
        }
        Cond::Both(left, _, on_true, on_false, right) => {
            let left = condition(alloc, program, left)?;
            let right = condition(alloc, program, right)?;
            boxed(
                alloc,
                CmCond::Both {
                    left,
                    on_true: *on_true,
                    on_false: *on_false,
                    right,
                },
            )
        }
        Cond::Either(left, _, on_true, on_false, right) => {
            let left = condition(alloc, program, left)?;
            let right = condition(alloc, program, right)?;
            boxed(
                alloc,
                CmCond::Either {
                    left,
                    on_true: *on_true,
                    on_false: *on_false,
                    right,
                },
            )
        }
    }
}
