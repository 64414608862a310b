//! The typed trees of simple statements, or the first node of one that has no type (ISO/IEC 9899:1999, 6.5.2.2, 6.5.16 and 6.8).
ghost use Rattle.std.specs.Prelude.{◌≡◌, map};
ghost use Rattle.std.specs.Option.{option_map};
ghost use Rattle.clight_source.specs.Code.Views.{expr_of as source_of, assignment_of as assignment_source_of, test_of as test_source_of};
ghost use Rattle.clight_syntax.specs.Code.TypedViews.{assignment_of, stmt_of};
ghost use Rattle.clight_types.specs.Code.HeldJudged.{expr_in};
ghost use Rattle.clight_typing.specs.Code.HeldTrees.{test_in};
ghost use Rattle.clight_typing.specs.Code.HeldScopes.{scope_of};
ghost use Rattle.clight_typing.specs.Code.HeldBody.{body_for};
ghost use Rattle.clight_types.specs.Outcomes.{Gives};
ghost use Rattle.clight_typing.specs.TypedStatements.{typed_assignment as typed_assignment_lem, typed_test as typed_test_lem, typed_reading, typed_writing, typed_return, assigned as assigned_lem, read_port as read_port_lem};

use crate::scope::Scope;
use cerco_base::{Fault, TypeKind};
use clight_source::tree;
use clight_syntax::typed::{Assignment, Expr, Stmt, Test};
use clight_syntax::{Span, Ty};
use clight_types::assignable::takes;
use clight_types::boxes::boxed;
use clight_types::judged::refused;
use clight_types::operands::is_integer_value;
use indexmap::IndexSet;

/// What stands around the statements of a function.
#[derive(Clone, Copy)]
pub struct Body<'a> {
    pub scope: &'a Scope,
    /// The type of the function's result.
    pub result: &'a Ty,
    /// The number of the function's first variable.
    pub first_variable: u32,
    /// Its variables whose address is taken anywhere in it.
    pub addressed: &'a IndexSet<u32>,
    /// Whether the statements stand in a loop.
    pub in_loop: bool,
}

/// An assignment whose parts are typed. Refused with `Assign` where the target doesn't take the value.
fn assigned(target: Option<Box<Expr>>, equals: Span, value: Box<Expr>) -> Result<Assignment, Fault>
    ensures { Gives assignment_of result (assigned_lem equals (option_map expr_in target) (expr_in value)) }
{
    match target {
        Some(target) => {
            if !takes(&target, &value) {
                return Err(refused(equals.from, TypeKind::Assign));
            }
            Ok(Assignment {
                target: Box::into_inner(target),
                equals,
                value: Box::into_inner(value),
            })
        }
        None => Err(refused(equals.from, TypeKind::Assign)),
    }
}

impl Scope {
    /// An assignment. Refused at its first node without a type.
    pub fn typed_assignment(&self, x: &tree::Assignment) -> Result<Assignment, Fault>
        ensures { Gives assignment_of result (typed_assignment_lem (scope_of self.now) (assignment_source_of x.now)) }
    {
        let target = self.typed_place(&x.target)?;
        let value = self.typed_value(&x.value)?;
        assigned(target, x.equals, value)
    }

    /// A keyword and its condition. Refused at its first node without a type.
    pub fn typed_test(&self, x: &tree::Test) -> Result<Box<Test<()>>, Fault>
        ensures { Gives test_in result (typed_test_lem (scope_of self.now) (test_source_of x.now)) }
    {
        let condition = self.typed_condition(&x.condition)?;
        let test = Test {
            keyword: x.keyword,
            left: x.left,
            condition: Box::into_inner(condition),
            right: x.right,
        };
        Ok(boxed(self.alloc, test)?)
    }

    /// `P1 = value;` Refused at its first node without a type, with `Port` where the value is no integer.
    pub fn typed_writing(
        &self,
        port: Span,
        equals: Span,
        value: &tree::Expr,
        semicolon: Span,
    ) -> Result<Stmt<()>, Fault>
        ensures { Gives stmt_of result (typed_writing (scope_of self.now) port equals (source_of value.now) semicolon) }
    {
        let e = self.typed_value(value)?;
        if !is_integer_value(&e) {
            return Err(refused(equals.from, TypeKind::Port));
        }
        Ok(Stmt::WritePort(port, equals, Box::into_inner(e), semicolon))
    }
}
