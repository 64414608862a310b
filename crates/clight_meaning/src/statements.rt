//! What statements do to the state of a run.
ghost use Rattle.std.specs.Prelude.{◌≡◌, ℕ, drop, length, take, slice_get, MatchResult, Ok};
ghost use Rattle.cerco_base.specs.Events.{next_reading};
ghost use Rattle.c_types.specs.Types.{type_of};
ghost use Rattle.clight_syntax.specs.Code.TypedViews.{assignment_of, expr_of, program_of};
ghost use Rattle.clight_values.specs.Memory as m;
ghost use Rattle.clight_meaning.specs.Meaning as n;
ghost use Rattle.clight_values.specs.Code.Views.{Makes, type_held, variables_held};
ghost use Rattle.clight_meaning.specs.Code.Views.{assignments_held, positions_held, state_held};

use crate::state::{Position, State, type_at};
use c_types::Ty;
use cerco_base::{FaultKind, Label};
use clight_syntax::typed::{Assignment, Expr, ResultTarget, TypedProgram, Variable};
use clight_values::lookup::item_at;
use clight_values::memory::initial;
use clight_values::operators::converted_answer;
use clight_values::value::Value;

/// The type of the variable with this number, if there is one.
pub(crate) fn variable_type(variables: &[Variable], number: usize) -> Option<&Ty>
    ensures { type_held result ≡ n.type_in (slice_get (variables_held variables.now) number) }
{
    item_at(variables, number).map(|variable| &variable.ty)
}

/// A value of the first type as one of the second, which may not be there.
pub(crate) fn converted_to(
    from: &Ty,
    to: Option<&Ty>,
    value: Result<Value, FaultKind>,
) -> Result<Value, FaultKind>
    ensures { result ≡ n.converted_answer (type_of from.now) (type_held to.entry) value }
{
    match to {
        Some(ty) => converted_answer(from, ty, value),
        None => match value {
            Err(kind) => Err(kind),
            Ok(_) => Err(FaultKind::Outside),
        },
    }
}

/// The value with which a scalar of this type begins, 0 where there is no type.
pub(crate) fn initial_of(ty: Option<&Ty>) -> Value
    ensures { result ≡ m.initial (type_held ty.entry) }
{
    match ty {
        None => Value::Integer(0),
        Some(ty) => initial(ty),
    }
}

impl<'a> State<'a> {
    /// Assigns a value of a type to a place of another.
    pub(crate) fn assign_to(
        &mut self,
        ty: &Ty,
        position: Result<Position, FaultKind>,
        from: &Ty,
        value: Result<Value, FaultKind>,
    ) -> Result<(), FaultKind>
        ensures { Makes (n.assigned_to (type_of ty.now) (positions_held position) (type_of from.now) value (state_held self.old)) (state_held self.new) result }
    {
        let position = match position {
            Err(kind) => return Err(kind),
            Ok(position) => position,
        };
        match converted_answer(from, ty, value) {
            Err(kind) => Err(kind),
            Ok(value) => self.store(ty, position, value),
        }
    }

    /// Runs an assignment.
    pub(crate) fn assign(
        &mut self,
        program: &TypedProgram<Label>,
        assignment: &Assignment,
    ) -> Result<(), FaultKind>
        ensures { Makes (n.assigned (program_of program.now) (assignment_of assignment.now) (state_held self.old)) (state_held self.new) result }
    {
        let position = self.position(program, &assignment.target);
        let value = self.value(program, &assignment.value);
        self.assign_to(
            type_at(&assignment.target),
            position,
            type_at(&assignment.value),
            value,
        )
    }

    /// Runs an assignment, if there is one.
    pub(crate) fn assign_if_any(
        &mut self,
        program: &TypedProgram<Label>,
        assignment: &Option<Assignment>,
    ) -> Result<(), FaultKind>
        ensures { Makes (n.assigned_if_any (program_of program.now) (assignments_held assignment.now) (state_held self.old)) (state_held self.new) result }
    {
        match assignment {
            None => Ok(()),
            Some(assignment) => self.assign(program, assignment),
        }
    }

    /// Assigns a value of a type to the variable with this number.
    pub(crate) fn assign_variable(
        &mut self,
        program: &TypedProgram<Label>,
        number: usize,
        from: &Ty,
        value: Result<Value, FaultKind>,
    ) -> Result<(), FaultKind>
        ensures { Makes (n.assigned_variable (program_of program.now) number (type_of from.now) value (state_held self.old)) (state_held self.new) result }
    {
        let position = self.frame.variable_position(&program.variables, number);
        match variable_type(&program.variables, number) {
            Some(ty) => self.assign_to(ty, Ok(position), from, value),
            None => match value {
                Err(kind) => Err(kind),
                Ok(_) => Err(FaultKind::Outside),
            },
        }
    }

    /// Gives the result of a call to its target, if there is one.
    pub(crate) fn take_result(
        &mut self,
        program: &TypedProgram<Label>,
        target: Option<ResultTarget>,
        ty: &Ty,
        value: Value,
    ) -> Result<(), FaultKind>
        ensures { Makes (n.taken (program_of program.now) target (type_of ty.now) value (state_held self.old)) (state_held self.new) result }
    {
        match target {
            None => Ok(()),
            Some(target) => {
                self.assign_variable(program, target.variable as usize, ty, Ok(value))
            }
        }
    }

    /// Takes the next reading of a port.
    pub(crate) fn read(&mut self) -> u8
        ensures value { result ≡ next_reading (state_held self.old).script }
        ensures state { state_held self.new ≡ n.after_reading (state_held self.old) }
    {
        match self.script {
            [] => 255,
            [byte, rest @ ..] => {
                self.script = rest;
                *byte
            }
        }
    }
}
