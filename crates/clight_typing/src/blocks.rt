//! The typed trees of all statements, or the first node of one that has no type (ISO/IEC 9899:1999, 6.8).
ghost use Rattle.std.specs.Prelude.{◌≡◌};
ghost use Rattle.clight_source.specs.Code.Views.{stmt_of as source_of, stmts_of as sources_of};
ghost use Rattle.clight_syntax.specs.Code.TypedViews.{stmt_of, stmts_of};
ghost use Rattle.clight_typing.specs.Code.HeldBody.{body_for};
ghost use Rattle.clight_types.specs.Outcomes.{Gives};
ghost use Rattle.clight_typing.specs.Code.HeldTrees.{stmt_in};
ghost use Rattle.clight_typing.specs.Statements.{in_loop as in_loop_lem};
ghost use Rattle.clight_typing.specs.TypedStatements.{typed_stmt as typed_stmt_lem, typed_stmts as typed_stmts_lem};

use crate::statements::Body;
use cerco_base::Fault;
use clight_source::tree;
use clight_syntax::typed::Stmt;
use clight_types::boxes::boxed;

impl Body<'_> {
    /// The same, in a loop.
    fn in_a_loop(&self) -> Body<'_>
        ensures { body_for result ≡ in_loop_lem (body_for self.now) }
    {
        Body {
            scope: self.scope,
            result: self.result,
            first_variable: self.first_variable,
            addressed: self.addressed,
            in_loop: true,
        }
    }

    /// A statement. Refused at its first node without a type.
    #[cycle(typed_stmt)]
    pub fn typed_stmt(&self, s: &tree::Stmt) -> Result<Stmt<()>, Fault>
        ensures { Gives stmt_of result (typed_stmt_lem (body_for self.now) (source_of s.now)) }
    {
        let alloc = self.scope.alloc;
        match s {
            tree::Stmt::Empty(semicolon) => Ok(Stmt::Empty(*semicolon)),
            tree::Stmt::Block(left, body, right) => {
                let inner = self.typed_stmts(body.as_slice())?;
                Ok(Stmt::Block(*left, inner, *right))
            }
            tree::Stmt::Assign(x, semicolon) => {
                let x = self.scope.typed_assignment(x)?;
                Ok(Stmt::Assign(x, *semicolon))
            }
            tree::Stmt::ReadPort(target, equals, port, semicolon) => self.typed_reading(
                target, *equals, *port, *semicolon,
            ),
            tree::Stmt::WritePort(port, equals, value, semicolon) => self
                .scope
                .typed_writing(*port, *equals, value, *semicolon),
            tree::Stmt::Call(x, semicolon) => {
                let x = self.typed_call(x)?;
                Ok(Stmt::Call(x, *semicolon, ()))
            }
            tree::Stmt::If(test, arm) => {
                let test = self.scope.typed_test(test)?;
                let arm = self.typed_part(arm)?;
                Ok(Stmt::If(Box::into_inner(test), (), arm, ()))
            }
            tree::Stmt::IfElse(test, arm, at, otherwise) => {
                let test = self.scope.typed_test(test)?;
                let arm = self.typed_part(arm)?;
                let otherwise = self.typed_part(otherwise)?;
                Ok(Stmt::IfElse(Box::into_inner(test), (), arm, *at, (), otherwise))
            }
            tree::Stmt::While(test, inner) => {
                let test = self.scope.typed_test(test)?;
                let inner = self.in_a_loop().typed_part(inner)?;
                Ok(Stmt::While(Box::into_inner(test), (), inner, ()))
            }
            tree::Stmt::Do(keyword, inner, test, semicolon) => {
                let inner = self.in_a_loop().typed_part(inner)?;
                let test = self.scope.typed_test(test)?;
                Ok(Stmt::Do(*keyword, inner, Box::into_inner(test), (), *semicolon, ()))
            }
            tree::Stmt::For(head, inner) => {
                let head = self.scope.typed_for(head)?;
                let inner = self.in_a_loop().typed_part(inner)?;
                Ok(Stmt::For(Box::into_inner(head), (), inner, ()))
            }
            tree::Stmt::Break(keyword, semicolon) => {
                let statement = boxed(alloc, Stmt::Break(*keyword, *semicolon))?;
                self.jump(*keyword, statement)
            }
            tree::Stmt::Continue(keyword, semicolon) => {
                let statement = boxed(alloc, Stmt::Continue(*keyword, *semicolon))?;
                self.jump(*keyword, statement)
            }
            tree::Stmt::Return(keyword, value, semicolon) => self.typed_return(
                *keyword,
                value.as_ref(),
                *semicolon,
            ),
        }
    }

    /// A statement that is part of another one. Refused at its first node without a type.
    #[cycle(typed_stmt)]
    fn typed_part(&self, s: &tree::Stmt) -> Result<Box<Stmt<()>>, Fault>
        ensures { Gives stmt_in result (typed_stmt_lem (body_for self.now) (source_of s.now)) }
    {
        let part = self.typed_stmt(s)?;
        Ok(boxed(self.scope.alloc, part)?)
    }

    /// Statements in order. Refused at the first node without a type.
    #[cycle(typed_stmt)]
    pub fn typed_stmts(&self, xs: &[tree::Stmt]) -> Result<Vec<Stmt<()>>, Fault>
        ensures { Gives (λ r. stmts_of r.items) result (typed_stmts_lem (body_for self.now) (sources_of xs.now)) }
    {
        let mut typed = Vec::new(self.scope.alloc);
        for x in xs {
            typed.push(self.typed_stmt(x)?)?;
        }
        Ok(typed)
    }
}
