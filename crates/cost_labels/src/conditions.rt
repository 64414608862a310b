//! The labels of conditions.
ghost use Rattle.std.specs.Prelude.{◌≡◌, ◌++◌, option_map, IfOk};
ghost use Rattle.clight_syntax.specs.Code.TypedViews.{cond_of, test_of, for_head_of};
ghost use Rattle.clight_syntax.specs.Labelling.{cond_from as from_of_cond, cond_to as to_of_cond, operand_points, cond_without, cond_points, test_without, head_without, head_points};

use crate::boxes::boxed;
use crate::marker::Marker;
use crate::places::{cond_from, cond_to};
use cerco_base::{Label, NoMemory};
use clight_syntax::Piece;
use clight_syntax::typed::{Cond, ForHead, Test};
use std::alloc::Global;

// Gives the left operand of `&&` or `||` its labels, and those after it: where it is true, and where it is false.
#[cycle(label_cond)]
fn label_operand(
    alloc: Global,
    operand: Box<Cond<()>>,
    marker: &mut Marker,
) -> Result<(Box<Cond<Label>>, Label, Label), NoMemory>
    ensures alone { IfOk result (λ r. cond_without (cond_of r.0.value) ≡ cond_of operand.value) }
    ensures points { IfOk result (λ r. marker.new.points
        ≡ marker.old.points ++ operand_points (from_of_cond (cond_of r.0.value)) (cond_points (cond_of r.0.value)) (to_of_cond (cond_of r.0.value)) r.1 r.2) }
{
    marker.add(cond_from(&operand), Piece::CondOpen)?;
    let operand = label_cond(alloc, Box::into_inner(operand), marker)?;
    let (on_true, on_false) = marker.close_operand(cond_to(&operand))?;
    Ok((operand, on_true, on_false))
}

/// Gives a condition its labels.
#[cycle(label_cond)]
pub fn label_cond(
    alloc: Global,
    cond: Cond<()>,
    marker: &mut Marker,
) -> Result<Box<Cond<Label>>, NoMemory>
    ensures alone { IfOk result (λ c. cond_without (cond_of c.value) ≡ cond_of cond) }
    ensures points { IfOk result (λ c. marker.new.points ≡ marker.old.points ++ cond_points (cond_of c.value)) }
{
    match cond {
        Cond::Value(e) => boxed(alloc, Cond::Value(e)),
        Cond::Parenthesis(left, inner, right) => {
            let inner = label_cond(alloc, Box::into_inner(inner), marker)?;
            boxed(alloc, Cond::Parenthesis(left, inner, right))
        }
        Cond::Not(at, inner) => {
            let inner = label_cond(alloc, Box::into_inner(inner), marker)?;
            boxed(alloc, Cond::Not(at, inner))
        }
        Cond::Both(left, at, (), (), right) => {
            let (left, on_true, on_false) = label_operand(alloc, left, marker)?;
            let right = label_cond(alloc, Box::into_inner(right), marker)?;
            boxed(alloc, Cond::Both(left, at, on_true, on_false, right))
        }
        Cond::Either(left, at, (), (), right) => {
            let (left, on_true, on_false) = label_operand(alloc, left, marker)?;
            let right = label_cond(alloc, Box::into_inner(right), marker)?;
            boxed(alloc, Cond::Either(left, at, on_true, on_false, right))
        }
    }
}

/// Gives the condition of a test its labels.
pub fn label_test(
    alloc: Global,
    test: Test<()>,
    marker: &mut Marker,
) -> Result<Box<Test<Label>>, NoMemory>
    ensures alone { IfOk result (λ t. test_without (test_of t.value) ≡ test_of test) }
    ensures points { IfOk result (λ t. marker.new.points ≡ marker.old.points ++ cond_points (cond_of t.value.condition)) }
{
    let Test {
        keyword,
        left,
        condition,
        right,
    } = test;
    let condition = label_cond(alloc, condition, marker)?;
    boxed(
        alloc,
        Test {
            keyword,
            left,
            condition: Box::into_inner(condition),
            right,
        },
    )
}

// Gives the condition of a `for` its labels, if it has one.
fn label_optional(
    alloc: Global,
    cond: Option<Cond<()>>,
    marker: &mut Marker,
) -> Result<Option<Cond<Label>>, NoMemory>
    ensures alone { IfOk result (λ c. option_map cond_without (option_map cond_of c) ≡ option_map cond_of cond) }
    ensures points { IfOk result (λ c. marker.new.points ≡ marker.old.points ++ head_points (option_map cond_of c)) }
{
    match cond {
        None => Ok(None),
        Some(cond) => {
            let cond = label_cond(alloc, cond, marker)?;
            Ok(Some(Box::into_inner(cond)))
        }
    }
}

/// Gives the condition of a `for` its labels.
pub fn label_head(
    alloc: Global,
    head: ForHead<()>,
    marker: &mut Marker,
) -> Result<Box<ForHead<Label>>, NoMemory>
    ensures alone { IfOk result (λ h. head_without (for_head_of h.value) ≡ for_head_of head) }
    ensures points { IfOk result (λ h. marker.new.points ≡ marker.old.points ++ head_points (option_map cond_of h.value.condition)) }
{
    let mut head = boxed(alloc, head)?;
    let condition = label_optional(alloc, head.condition.take(), marker)?;
    boxed(
        alloc,
        ForHead {
            keyword: head.keyword,
            left: head.left,
            first: head.first.take(),
            first_semicolon: head.first_semicolon,
            condition,
            second_semicolon: head.second_semicolon,
            step: head.step.take(),
            right: head.right,
        },
    )
}
