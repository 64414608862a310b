//! The typed tree of an expression, or the first node of it that has no type (ISO/IEC 9899:1999, 6.5). The parts of a node are
//! judged before the node itself, in the order of the text.
ghost use Rattle.std.specs.Prelude.{◌≡◌, Ok};
ghost use Rattle.std.specs.Option.{option_map};
ghost use Rattle.c_types.specs.Types.{type_of};
ghost use Rattle.clight_source.specs.Code.Views.{expr_of as source_of};
ghost use Rattle.clight_types.specs.Declarations.{named_type as named_type_lem};
ghost use Rattle.clight_types.specs.Code.HeldJudged.{judged_of, expr_in, cond_in};
ghost use Rattle.clight_typing.specs.Code.HeldScopes.{scope_of};
ghost use Rattle.clight_types.specs.Outcomes.{Gives};
ghost use Rattle.clight_types.specs.Scopes.{meaning_of};
ghost use Rattle.clight_types.specs.TypedExpressions.{judged as judged_lem, judged_name, object_words as object_words_lem, typed_value as typed_value_lem, typed_condition as typed_condition_lem, typed_place as typed_place_lem};

use crate::scope::{Meaning, Scope};
use cerco_base::{Fault, TypeKind};
use clight_source::tree::{self, Name, PrefixOperator, Specifiers};
use clight_syntax::typed::Expr;
use clight_syntax::{Cond, Ty};
use clight_types::boxes::boxed;
use clight_types::judged::{
    Judged, condition_in, in_parentheses, number, place_in, refused, value_in, words_start,
};
use clight_types::members::{named_type, select};
use clight_types::nodes::{
    address, binary, cast, dereferenced, element, is_logical, logical, promoted,
};

impl Scope {
    /// A name by itself.
    fn named(&self, name: Name) -> Result<Judged, Fault>
        ensures { Gives judged_of result (Ok (judged_name (meaning_of (scope_of self.now) name.number) name)) }
    {
        match self.look_up(name.number) {
            Some(Meaning::Object(variable, ty)) => {
                let copy = ty.duplicate(self.alloc)?;
                let node = boxed(self.alloc, Expr::Variable(copy, *variable, name))?;
                Ok(Judged::Typed(node))
            }
            _ => Ok(Judged::NoVariable),
        }
    }

    /// The type that its words give. Refused with `Void` or `Long`, at its first word, where it is `void` or has four bytes.
    pub fn object_words(&self, words: Specifiers) -> Result<Ty, Fault>
        ensures { Gives type_of result (object_words_lem (named_type_lem (scope_of self.now).structs words) words) }
    {
        let ty = named_type(&self.structs, words)?;
        match ty {
            Ty::Void => Err(refused(words_start(words), TypeKind::Void)),
            Ty::I32 | Ty::U32 => Err(refused(words_start(words), TypeKind::Long)),
            ty => Ok(ty),
        }
    }

    /// What an expression is by itself. Refused at its first node without a type.
    pub fn judged(&self, e: &tree::Expr) -> Result<Judged, Fault>
        ensures { Gives judged_of result (judged_lem (scope_of self.now) (source_of e.now)) }
    {
        match e {
            tree::Expr::Name(name) => self.named(*name),
            tree::Expr::Number(literal, span) => number(self.alloc, *literal, *span),
            tree::Expr::Parenthesis(left, part, right) => {
                let inner = self.judged(part)?;
                in_parentheses(self.alloc, *left, *right, inner)
            }
            tree::Expr::Binary(left, operator, at, right) => {
                let first = self.judged(left)?;
                if is_logical(*operator) {
                    let one = condition_in(self.alloc, left, first)?;
                    let second = self.judged(right)?;
                    let other = condition_in(self.alloc, right, second)?;
                    return logical(self.alloc, *operator, *at, one, other);
                }
                let one = value_in(left, first)?;
                let second = self.judged(right)?;
                let other = value_in(right, second)?;
                binary(self.alloc, &self.structs, *operator, *at, one, other)
            }
            tree::Expr::Prefix(operator, at, part) => {
                let inner = self.judged(part)?;
                self.prefixed(*operator, *at, part, inner)
            }
            tree::Expr::Cast(left, words, right, part) => {
                let ty = self.object_words(*words)?;
                let inner = self.judged(part)?;
                cast(self.alloc, ty, *left, *words, *right, part, inner)
            }
            tree::Expr::Index(base, left, index, right) => {
                let first = self.judged(base)?;
                let one = value_in(base, first)?;
                let second = self.judged(index)?;
                element(self.alloc, &self.structs, *left, *right, one, index, second)
            }
            tree::Expr::Member(part, operator, at, member) => {
                let inner = self.judged(part)?;
                let place = place_in(part, inner)?;
                select(self.alloc, &self.structs, *operator, *at, *member, place)
            }
        }
    }

    /// A prefix form whose operand is judged.
    fn prefixed(
        &self,
        operator: PrefixOperator,
        at: clight_syntax::Span,
        source: &tree::Expr,
        inner: Judged,
    ) -> Result<Judged, Fault>
        ensures { Gives judged_of result (Rattle.clight_types.specs.TypedExpressions.judged_prefix operator at (source_of source.now) (Ok (judged_of inner))) }
    {
        match operator {
            PrefixOperator::Negate => {
                let value = value_in(source, inner)?;
                promoted(self.alloc, PrefixOperator::Negate, at, value)
            }
            PrefixOperator::Complement => {
                let value = value_in(source, inner)?;
                promoted(self.alloc, PrefixOperator::Complement, at, value)
            }
            PrefixOperator::Dereference => {
                let value = value_in(source, inner)?;
                dereferenced(self.alloc, at, value)
            }
            PrefixOperator::AddressOf => {
                let place = place_in(source, inner)?;
                address(self.alloc, at, place)
            }
            PrefixOperator::Not => {
                let condition = condition_in(self.alloc, source, inner)?;
                let node = boxed(self.alloc, Cond::Not(at, condition))?;
                Ok(Judged::Logical(node))
            }
        }
    }

    /// An expression where a value is needed. Refused at its first node without a type.
    pub fn typed_value(&self, e: &tree::Expr) -> Result<Box<Expr>, Fault>
        ensures { Gives expr_in result (typed_value_lem (scope_of self.now) (source_of e.now)) }
    {
        let judged = self.judged(e)?;
        value_in(e, judged)
    }

    /// An expression where a condition is needed. Refused at its first node without a type.
    pub fn typed_condition(&self, e: &tree::Expr) -> Result<Box<Cond<()>>, Fault>
        ensures { Gives cond_in result (typed_condition_lem (scope_of self.now) (source_of e.now)) }
    {
        let judged = self.judged(e)?;
        condition_in(self.alloc, e, judged)
    }

    /// An expression where a place is needed; None for the name of a function. Refused at its first node without a type.
    pub fn typed_place(&self, e: &tree::Expr) -> Result<Option<Box<Expr>>, Fault>
        ensures { Gives (option_map expr_in) result (typed_place_lem (scope_of self.now) (source_of e.now)) }
    {
        let judged = self.judged(e)?;
        place_in(e, judged)
    }
}
