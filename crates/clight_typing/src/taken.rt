//! The variables whose address is taken (ISO/IEC 9899:1999, 6.5.3.2).
ghost use Rattle.std.specs.Prelude.{◌≡◌, ◌++◌, OnOk, IfOk, map, nat_eq};
ghost use Rattle.std.specs.Option.{option_map};
ghost use Rattle.clight_source.specs.Code.Views.{expr_of, assignment_of, earlier_argument_of, arguments_of, for_head_of, stmt_of, stmts_of};
ghost use Rattle.clight_typing.specs.Code.HeldScopes.{scope_of};
ghost use Rattle.clight_typing.specs.Statements.{option_list, is_among};
ghost use Rattle.clight_typing.specs.TypedStatements.{variable_at as variable_at_lem, taken_in, optional_taken, assignment_taken, earlier_taken, arguments_taken, for_taken, stmt_taken, stmts_taken};
ghost use Rattle.indexmap.specs.IndexSet.{contains};

use crate::scope::{Meaning, Scope};
use cerco_base::NoMemory;
use clight_source::tree::{
    Arguments, Assignment, EarlierArgument, Expr, ForHead, PrefixOperator, Stmt,
};
use indexmap::IndexSet;
use std::alloc::Global;

impl Scope {
    /// The variable that an expression is, in any parentheses.
    fn variable_at(&self, e: &Expr) -> Option<u32>
        ensures { result ≡ variable_at_lem (scope_of self.now) (expr_of e.now) }
    {
        match e {
            Expr::Name(name) => match self.look_up(name.number) {
                Some(Meaning::Object(variable, _)) => Some(*variable),
                _ => None,
            },
            Expr::Parenthesis(_, part, _) => self.variable_at(part),
            _ => None,
        }
    }

    /// Adds the variable that is the operand of `&`, if it is one.
    fn add_operand(&self, e: &Expr, taken: &mut Vec<u32>) -> Result<(), NoMemory>
        ensures { OnOk result (taken.new.items ≡ taken.old.items ++ option_list (variable_at_lem (scope_of self.now) (expr_of e.now))) }
    {
        if let Some(variable) = self.variable_at(e) {
            taken.push(variable)?;
        }
        Ok(())
    }

    /// Adds the variables to which an expression applies `&`.
    pub fn add_taken(&self, e: &Expr, taken: &mut Vec<u32>) -> Result<(), NoMemory>
        ensures { OnOk result (taken.new.items ≡ taken.old.items ++ taken_in (scope_of self.now) (expr_of e.now)) }
    {
        match e {
            Expr::Name(_) | Expr::Number(_, _) => Ok(()),
            Expr::Parenthesis(_, part, _)
            | Expr::Cast(_, _, _, part)
            | Expr::Member(part, _, _, _) => { self.add_taken(part, taken) }
            Expr::Binary(left, _, _, right) | Expr::Index(left, _, right, _) => {
                self.add_taken(left, taken)?;
                self.add_taken(right, taken)
            }
            Expr::Prefix(operator, _, part) => {
                if matches!(operator, PrefixOperator::AddressOf) {
                    self.add_operand(part, taken)?;
                }
                self.add_taken(part, taken)
            }
        }
    }

    /// Adds those of an expression, if there is one.
    fn add_optional(&self, e: &Option<Expr>, taken: &mut Vec<u32>) -> Result<(), NoMemory>
        ensures { OnOk result (taken.new.items ≡ taken.old.items ++ optional_taken (taken_in (scope_of self.now)) (option_map expr_of e.now)) }
    {
        match e {
            Some(e) => self.add_taken(e, taken),
            None => Ok(()),
        }
    }

    /// Adds those of an assignment.
    fn add_assignment(&self, x: &Assignment, taken: &mut Vec<u32>) -> Result<(), NoMemory>
        ensures { OnOk result (taken.new.items ≡ taken.old.items ++ assignment_taken (scope_of self.now) (assignment_of x.now)) }
    {
        self.add_taken(&x.target, taken)?;
        self.add_taken(&x.value, taken)
    }

    /// Adds those of an assignment, if there is one.
    fn add_optional_assignment(
        &self,
        x: &Option<Assignment>,
        taken: &mut Vec<u32>,
    ) -> Result<(), NoMemory>
        ensures { OnOk result (taken.new.items ≡ taken.old.items ++ optional_taken (assignment_taken (scope_of self.now)) (option_map assignment_of x.now)) }
    {
        match x {
            Some(x) => self.add_assignment(x, taken),
            None => Ok(()),
        }
    }

    /// Adds those of the arguments before the last one.
    fn add_earlier(&self, xs: &[EarlierArgument], taken: &mut Vec<u32>) -> Result<(), NoMemory>
        ensures { OnOk result (taken.new.items ≡ taken.old.items ++ earlier_taken (scope_of self.now) (map earlier_argument_of xs.now)) }
    {
        for x in xs {
            self.add_taken(&x.value, taken)?;
        }
        Ok(())
    }

    /// Adds those of the arguments of a call.
    fn add_arguments(&self, x: &Arguments, taken: &mut Vec<u32>) -> Result<(), NoMemory>
        ensures { OnOk result (taken.new.items ≡ taken.old.items ++ arguments_taken (scope_of self.now) (arguments_of x.now)) }
    {
        match x {
            Arguments::Nothing => Ok(()),
            Arguments::Listed(earlier, last) => {
                self.add_earlier(earlier, taken)?;
                self.add_taken(last, taken)
            }
        }
    }

    /// Adds those of what stands before the body of a `for`.
    fn add_for(&self, x: &ForHead, taken: &mut Vec<u32>) -> Result<(), NoMemory>
        ensures { OnOk result (taken.new.items ≡ taken.old.items ++ for_taken (scope_of self.now) (for_head_of x.now)) }
    {
        self.add_optional_assignment(&x.first, taken)?;
        self.add_optional(&x.condition, taken)?;
        self.add_optional_assignment(&x.step, taken)
    }

    /// Adds those of a statement.
    #[cycle(add_stmt)]
    fn add_stmt(&self, s: &Stmt, taken: &mut Vec<u32>) -> Result<(), NoMemory>
        ensures { OnOk result (taken.new.items ≡ taken.old.items ++ stmt_taken (scope_of self.now) (stmt_of s.now)) }
    {
        match s {
            Stmt::Empty(_) | Stmt::Break(_, _) | Stmt::Continue(_, _) => Ok(()),
            Stmt::Block(_, body, _) => self.add_stmts(body.as_slice(), taken),
            Stmt::Assign(x, _) => self.add_assignment(x, taken),
            Stmt::ReadPort(e, _, _, _) | Stmt::WritePort(_, _, e, _) => self.add_taken(e, taken),
            Stmt::Call(x, _) => self.add_arguments(&x.arguments, taken),
            Stmt::If(test, body) | Stmt::While(test, body) => {
                self.add_taken(&test.condition, taken)?;
                self.add_stmt(body, taken)
            }
            Stmt::IfElse(test, arm, _, otherwise) => {
                self.add_taken(&test.condition, taken)?;
                self.add_stmt(arm, taken)?;
                self.add_stmt(otherwise, taken)
            }
            Stmt::Do(_, body, test, _) => {
                self.add_stmt(body, taken)?;
                self.add_taken(&test.condition, taken)
            }
            Stmt::For(head, body) => {
                self.add_for(head, taken)?;
                self.add_stmt(body, taken)
            }
            Stmt::Return(_, value, _) => self.add_optional(value, taken),
        }
    }

    /// Adds those of statements, in order.
    #[cycle(add_stmt)]
    pub fn add_stmts(&self, xs: &[Stmt], taken: &mut Vec<u32>) -> Result<(), NoMemory>
        ensures { OnOk result (taken.new.items ≡ taken.old.items ++ stmts_taken (scope_of self.now) (stmts_of xs.now)) }
    {
        for x in xs {
            self.add_stmt(x, taken)?;
        }
        Ok(())
    }
}

/// The set of some numbers.
pub fn set_of(alloc: Global, xs: &[u32]) -> Result<IndexSet<u32>, NoMemory>
    ensures { IfOk result (λ s. contains nat_eq s ≡ is_among xs.now) }
{
    let mut set = IndexSet::new(alloc);
    for x in xs {
        set.insert(*x)?;
    }
    Ok(set)
}
