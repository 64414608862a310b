//! What an expression is by itself, and what it is where a value, a condition or a place is needed.
ghost use Rattle.std.specs.Prelude.{◌≡◌, Ok, Some, None};
ghost use Rattle.std.specs.Option.{option_map};
ghost use Rattle.cerco_base.specs.declared.reasons.Fault.TheVariants.{Refused};
ghost use Rattle.cerco_base.specs.declared.reasons.Reason.TheVariants.{Typing};
ghost use Rattle.clight_source.specs.Code.Views.{expr_of as source_of};
ghost use Rattle.clight_types.specs.TypedExpressions.{judged_number, value_in as value_in_lem, condition_in as condition_in_lem, place_in as place_in_lem, in_parentheses as in_parentheses_lem, expr_place, bare_place as bare_place_lem, words_start as words_start_lem};
ghost use Rattle.clight_types.specs.Outcomes.{Gives};
ghost use Rattle.clight_types.specs.Code.HeldJudged.{judged_of, expr_in, cond_in};

use crate::boxes::boxed;
use crate::operands::{carried, has_value, is_scalar_value};
use c_types::Size;
use cerco_base::{Fault, Reason, TypeKind};
use clight_source::tree::{self, Specifiers};
use clight_syntax::typed::Expr;
use clight_syntax::{Cond, Literal, Span, literal_type};
use std::alloc::Global;

/// What an expression is by itself.
#[derive(Drop)]
pub enum Judged {
    /// It has a type.
    Typed(Box<Expr>),
    /// `!`, `&&` and `||`, in any parentheses, are conditions and have no type.
    Logical(Box<Cond<()>>),
    /// The name of a function, in any parentheses, has none either.
    NoVariable,
}

/// The refusal of the node at this place.
pub fn refused(at: u32, kind: TypeKind) -> Fault
    ensures { result ≡ Refused (Typing at kind) }
{
    Fault::Refused(Reason::Typing { at, kind })
}

/// The place of a node: its operator, or its first token where it has none.
pub fn place(e: &tree::Expr) -> u32
    ensures { result ≡ expr_place (source_of e.now) }
{
    match e {
        tree::Expr::Name(name) => name.span.from,
        tree::Expr::Number(_, span) => span.from,
        tree::Expr::Parenthesis(left, _, _) => left.from,
        tree::Expr::Binary(_, _, at, _) => at.from,
        tree::Expr::Prefix(_, at, _) => at.from,
        tree::Expr::Cast(left, _, _, _) => left.from,
        tree::Expr::Index(_, left, _, _) => left.from,
        tree::Expr::Member(_, _, at, _) => at.from,
    }
}

/// The place of the node in any parentheses.
pub fn bare_place(e: &tree::Expr) -> u32
    ensures { result ≡ bare_place_lem (source_of e.now) }
{
    match e {
        tree::Expr::Parenthesis(_, part, _) => bare_place(part),
        _ => place(e),
    }
}

/// The place of the first word of a type.
pub fn words_start(words: Specifiers) -> u32
    ensures { result ≡ words_start_lem words }
{
    match words {
        Specifiers::Void(first)
        | Specifiers::Struct(first, _)
        | Specifiers::Char(first)
        | Specifiers::SignedChar(first, _)
        | Specifiers::UnsignedChar(first, _)
        | Specifiers::Int(first)
        | Specifiers::Signed(first)
        | Specifiers::SignedInt(first, _)
        | Specifiers::Unsigned(first)
        | Specifiers::UnsignedInt(first, _)
        | Specifiers::Long(first)
        | Specifiers::LongInt(first, _)
        | Specifiers::SignedLong(first, _)
        | Specifiers::SignedLongInt(first, _, _)
        | Specifiers::UnsignedLong(first, _)
        | Specifiers::UnsignedLongInt(first, _, _) => first.from,
    }
}

/// An expression where a value is needed. Refused with `Value` where it has none.
pub fn value_in(source: &tree::Expr, judged: Judged) -> Result<Box<Expr>, Fault>
    ensures { Gives expr_in result (value_in_lem (source_of source.now) (judged_of judged)) }
{
    match judged {
        Judged::Typed(e) => {
            if has_value(&e) {
                return Ok(e);
            }
            Err(refused(place(source), TypeKind::Value))
        }
        Judged::Logical(_) | Judged::NoVariable => {
            Err(refused(bare_place(source), TypeKind::Value))
        }
    }
}

/// An expression where a condition is needed. Refused with `Condition` where it is none.
pub fn condition_in(
    alloc: Global,
    source: &tree::Expr,
    judged: Judged,
) -> Result<Box<Cond<()>>, Fault>
    ensures { Gives cond_in result (condition_in_lem (source_of source.now) (judged_of judged)) }
{
    match judged {
        Judged::Typed(e) => {
            if is_scalar_value(&e) {
                let condition = boxed(alloc, Cond::Value(Box::into_inner(e)))?;
                return Ok(condition);
            }
            Err(refused(place(source), TypeKind::Condition))
        }
        Judged::Logical(condition) => Ok(condition),
        Judged::NoVariable => Err(refused(bare_place(source), TypeKind::Condition)),
    }
}

/// An expression where a place is needed: the operand of `&`, and the left side of `.`, `->` and `=`. The name of a function is
/// none. Refused with `Value` where it is a condition.
pub fn place_in(source: &tree::Expr, judged: Judged) -> Result<Option<Box<Expr>>, Fault>
    ensures { Gives (option_map expr_in) result (place_in_lem (source_of source.now) (judged_of judged)) }
{
    match judged {
        Judged::Typed(e) => Ok(Some(e)),
        Judged::Logical(_) => Err(refused(bare_place(source), TypeKind::Value)),
        Judged::NoVariable => Ok(None),
    }
}

/// An integer constant. Refused with `Long` where its type would have four bytes.
pub fn number(alloc: Global, literal: Literal, span: Span) -> Result<Judged, Fault>
    ensures { Gives judged_of result (judged_number literal span) }
{
    let integer = literal_type(literal);
    match integer.size {
        Size::Four => Err(refused(span.from, TypeKind::Long)),
        _ => {
            let node = boxed(alloc, Expr::Number(integer.as_type(), literal, span))?;
            Ok(Judged::Typed(node))
        }
    }
}

/// An expression in parentheses.
pub fn in_parentheses(
    alloc: Global,
    left: Span,
    right: Span,
    judged: Judged,
) -> Result<Judged, Fault>
    ensures { Gives judged_of result (Ok (in_parentheses_lem left right (judged_of judged))) }
{
    match judged {
        Judged::Typed(e) => {
            let ty = carried(&e).duplicate(alloc)?;
            let node = boxed(alloc, Expr::Parenthesis(ty, left, e, right))?;
            Ok(Judged::Typed(node))
        }
        Judged::Logical(condition) => {
            let node = boxed(alloc, Cond::Parenthesis(left, condition, right))?;
            Ok(Judged::Logical(node))
        }
        Judged::NoVariable => Ok(Judged::NoVariable),
    }
}
