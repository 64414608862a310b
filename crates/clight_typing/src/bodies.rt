//! The typed trees of the statements that depend on their function: readings of the port, calls' targets, jumps and returns
//! (ISO/IEC 9899:1999, 6.8.6).
ghost use Rattle.std.specs.Prelude.{◌≡◌};
ghost use Rattle.std.specs.Option.{option_map};
ghost use Rattle.clight_source.specs.Code.Views.{expr_of as source_of};
ghost use Rattle.clight_syntax.specs.Code.TypedViews.{expr_of, stmt_of};
ghost use Rattle.clight_types.specs.Code.HeldJudged.{expr_in};
ghost use Rattle.clight_typing.specs.Code.HeldBody.{body_for};
ghost use Rattle.clight_types.specs.Outcomes.{Gives};
ghost use Rattle.clight_typing.specs.Statements.{reads_into as reads_into_lem, is_own as is_own_lem};
ghost use Rattle.clight_typing.specs.TypedStatements.{typed_reading as typed_reading_lem, read_port as read_port_lem, typed_return as typed_return_lem, jump as jump_lem};

use crate::statements::Body;
use cerco_base::{Fault, TypeKind};
use clight_source::tree;
use clight_syntax::typed::{Expr, Stmt};
use clight_syntax::{Span, Ty};
use clight_types::assignable::{is_assignable_to, variable_of};
use clight_types::judged::refused;
use clight_types::operands::carried;

impl Body<'_> {
    /// Whether a variable is a parameter or local of the function, and its address isn't taken.
    pub fn is_own(&self, variable: u32) -> bool
        ensures { result ≡ is_own_lem (body_for self.now) variable }
    {
        self.first_variable <= variable && !self.addressed.contains(&variable)
    }

    /// Whether a port may be read into an expression.
    fn reads_into(&self, target: &Expr) -> bool
        ensures { result ≡ reads_into_lem (body_for self.now) (expr_of target.now) }
    {
        match variable_of(target) {
            Some(variable) => self.is_own(variable) && carried(target).is_integer(),
            None => false,
        }
    }

    /// A reading of the port into a typed target. Refused with `Port` where it can't take it.
    fn read_port(
        &self,
        target: Option<Box<Expr>>,
        equals: Span,
        port: Span,
        semicolon: Span,
    ) -> Result<Stmt<()>, Fault>
        ensures { Gives stmt_of result (read_port_lem (body_for self.now) (option_map expr_in target) equals port semicolon) }
    {
        match target {
            Some(target) => {
                if !self.reads_into(&target) {
                    return Err(refused(equals.from, TypeKind::Port));
                }
                Ok(Stmt::ReadPort(Box::into_inner(target), equals, port, semicolon))
            }
            None => Err(refused(equals.from, TypeKind::Port)),
        }
    }

    /// `target = P1;` Refused at its first node without a type.
    pub fn typed_reading(
        &self,
        target: &tree::Expr,
        equals: Span,
        port: Span,
        semicolon: Span,
    ) -> Result<Stmt<()>, Fault>
        ensures { Gives stmt_of result (typed_reading_lem (body_for self.now) (source_of target.now) equals port semicolon) }
    {
        let e = self.scope.typed_place(target)?;
        self.read_port(e, equals, port, semicolon)
    }

    /// `break;` and `continue;` Refused with `Jump` outside a loop.
    pub fn jump(&self, keyword: Span, statement: Box<Stmt<()>>) -> Result<Stmt<()>, Fault>
        ensures { Gives stmt_of result (jump_lem (body_for self.now) keyword (stmt_of statement.value)) }
    {
        if self.in_loop {
            return Ok(Box::into_inner(statement));
        }
        Err(refused(keyword.from, TypeKind::Jump))
    }

    /// `return;` and `return value;` Refused at its first node without a type, with `Return` where the value doesn't fit the
    /// function's result.
    pub fn typed_return(
        &self,
        keyword: Span,
        value: Option<&tree::Expr>,
        semicolon: Span,
    ) -> Result<Stmt<()>, Fault>
        ensures { Gives stmt_of result (typed_return_lem (body_for self.now) keyword (option_map (λ x. source_of x.now) value.entry) semicolon) }
    {
        match value {
            None => match self.result {
                Ty::Void => Ok(Stmt::Return(keyword, None, semicolon)),
                _ => Err(refused(keyword.from, TypeKind::Return)),
            },
            Some(value) => {
                let e = self.scope.typed_value(value)?;
                if !is_assignable_to(&e, self.result) {
                    return Err(refused(keyword.from, TypeKind::Return));
                }
                Ok(Stmt::Return(keyword, Some(Box::into_inner(e)), semicolon))
            }
        }
    }
}
