//! The state of a run, and the values of expressions in it.
ghost use Rattle.std.specs.Prelude.{◌≡◌, ℕ, ◌^◌, min, slice_get, unwrap_or, false};
ghost use Rattle.c_types.specs.Kinds.{integer_type};
ghost use Rattle.c_types.specs.Types.{type_of, size_of};
ghost use Rattle.clight_syntax.specs.Code.TypedViews.{expr_of, program_of};
ghost use Rattle.clight_syntax.specs.TypedTrees.{type_at};
ghost use Rattle.clight_values.specs.Memory as m;
ghost use Rattle.clight_values.specs.Operators as o;
ghost use Rattle.clight_meaning.specs.Expressions as e;
ghost use Rattle.clight_values.specs.Code.Views.{Becomes, variables_held, memory_held, structs_held};
ghost use Rattle.clight_meaning.specs.Code.Views.{frame_held, position_held, positions_held, state_held};

use c_types::{IntegerType, StructType, Ty};
use cerco_base::{FaultKind, Label};
use clight_source::tree::{BinaryOperator, MemberOperator, PrefixOperator};
use clight_syntax::typed::{Expr, Home, TypedProgram, Variable};
use clight_values::lookup::item_at;
use clight_values::memory::Memory;
use clight_values::operators::{
    complemented_answer, converted_answer, counted_size, negated_answer,
};
use clight_values::value::{Place, Value};

/// What the running call has for itself.
#[derive(Drop)]
pub(crate) struct Frame<'a> {
    /// How many blocks and bytes there were before its own.
    pub(crate) blocks: u32,
    pub(crate) cells: usize,
    /// Its number.
    pub(crate) call: u64,
    /// How many calls are open, this one included.
    pub(crate) depth: u64,
    /// The type of its result. There is none before `main` is called.
    pub(crate) result: Option<&'a Ty>,
    /// Its scalars, by their numbers.
    pub(crate) scalars: Vec<Value>,
}

/// The state of a run.
#[derive(Drop)]
pub(crate) struct State<'a> {
    pub(crate) memory: Memory<'a>,
    /// The number of the next call.
    pub(crate) made: u64,
    pub(crate) frame: Frame<'a>,
    /// What port readings take in turn.
    pub(crate) script: &'a [u8],
}

/// Where a place is.
#[derive(Clone, Copy)]
pub(crate) enum Position {
    /// The scalar of the running call with this number.
    InCall(u32),
    /// What a pointer points to.
    Behind(Value),
}

/// The type that an expression carries.
pub(crate) fn type_at(e: &Expr) -> &Ty
    ensures { type_of result.now ≡ type_at (expr_of e.now) }
{
    match e {
        Expr::Variable(ty, _, _) => ty,
        Expr::Number(ty, _, _) => ty,
        Expr::Parenthesis(ty, _, _, _) => ty,
        Expr::Binary(ty, _, _, _, _) => ty,
        Expr::Prefix(ty, _, _, _) => ty,
        Expr::Cast(ty, _, _, _, _) => ty,
        Expr::Index(ty, _, _, _, _) => ty,
        Expr::Member(ty, _, _, _, _, _) => ty,
    }
}

fn behind(pointer: Result<Value, FaultKind>) -> Result<Position, FaultKind>
    ensures { positions_held result ≡ e.behind pointer }
{
    match pointer {
        Err(kind) => Err(kind),
        Ok(pointer) => Ok(Position::Behind(pointer)),
    }
}

fn pointer_to(position: Result<Position, FaultKind>) -> Result<Value, FaultKind>
    ensures { result ≡ e.pointer_to (positions_held position) }
{
    match position {
        Err(kind) => Err(kind),
        Ok(Position::InCall(_)) => Err(FaultKind::Outside),
        Ok(Position::Behind(pointer)) => Ok(pointer),
    }
}

impl<'a> Frame<'a> {
    pub(crate) fn home_position(&self, home: Home) -> Position
        ensures { position_held result ≡ e.home_position home (frame_held self.now) }
    {
        match home {
            Home::Global(block) => Position::Behind(Value::Pointer(Place {
                slot: block as usize,
                call: 0,
                offset: 0,
            })),
            Home::Block(block) => Position::Behind(Value::Pointer(Place {
                slot: self.blocks as usize + block as usize,
                call: self.call,
                offset: 0,
            })),
            Home::Scalar(number) => Position::InCall(number),
        }
    }

    /// The position of the variable with this number.
    pub(crate) fn variable_position(&self, variables: &[Variable], number: usize) -> Position
        ensures { position_held result ≡ e.position_in (slice_get (variables_held variables.now) number) (frame_held self.now) }
    {
        match item_at(variables, number) {
            None => Position::Behind(Value::Null),
            Some(variable) => self.home_position(variable.home),
        }
    }
}

impl<'a> State<'a> {
    fn load(&self, ty: &Ty, position: Result<Position, FaultKind>) -> Result<Value, FaultKind>
        ensures { result ≡ e.loaded (type_of ty.now) (positions_held position) (state_held self.now) }
    {
        match position {
            Err(kind) => Err(kind),
            Ok(Position::InCall(number)) => Ok(self.scalar(number)),
            Ok(Position::Behind(pointer)) => self.memory.load(ty, pointer),
        }
    }

    fn scalar(&self, number: u32) -> Value
        ensures { result ≡ unwrap_or (slice_get self.now.frame.scalars.items number) (Value.Integer 0) }
    {
        match item_at(&self.frame.scalars, number as usize) {
            None => Value::Integer(0),
            Some(value) => *value,
        }
    }

    /// The value of a place of this type.
    fn value_at(&self, ty: &Ty, position: Result<Position, FaultKind>) -> Result<Value, FaultKind>
        ensures { result ≡ e.value_at (type_of ty.now) (positions_held position) (state_held self.now) }
    {
        if ty.is_array() {
            pointer_to(position)
        } else {
            self.load(ty, position)
        }
    }

    /// Stores a value of this type at a place. After a fault nothing has changed.
    pub(crate) fn store(
        &mut self,
        ty: &Ty,
        position: Position,
        value: Value,
    ) -> Result<(), FaultKind>
        ensures { Becomes (e.stored_in (type_of ty.now) (position_held position) value (state_held self.old)) (state_held self.old) (state_held self.new) result }
    {
        match position {
            Position::InCall(number) => {
                self.set_scalar(number, value);
                Ok(())
            }
            Position::Behind(pointer) => self.memory.store(ty, pointer, value),
        }
    }

    fn set_scalar(&mut self, number: u32, value: Value)
        ensures { state_held self.new ≡ e.set_scalar number value (state_held self.old) }
    {
        let number = number as usize;
        if number < self.frame.scalars.len() {
            self.frame.scalars[number] = value;
        }
    }
}

impl<'a> State<'a> {
    /// The position of a place, or the first fault.
    #[cycle(evaluation)]
    pub(crate) fn position(
        &self,
        program: &TypedProgram<Label>,
        expression: &Expr,
    ) -> Result<Position, FaultKind>
        ensures { positions_held result ≡ e.position (program_of program.now) (expr_of expression.now) (state_held self.now) }
    {
        match expression {
            Expr::Variable(_, number, _) => {
                Ok(
                    self.frame
                        .variable_position(&program.variables, *number as usize),
                )
            }
            Expr::Parenthesis(_, _, inner, _) => self.position(program, inner),
            Expr::Prefix(_, operator, _, inner) => match operator {
                PrefixOperator::Dereference => behind(self.value(program, inner)),
                _ => Err(FaultKind::Outside),
            },
            Expr::Index(ty, base, _, index, _) => behind(self.indexed(
                &program.structs,
                ty,
                self.value(program, base),
                type_at(index),
                self.value(program, index),
            )),
            Expr::Member(_, inner, operator, _, _, offset) => match operator {
                MemberOperator::Dot => {
                    behind(self.selected(pointer_to(self.position(program, inner)), *offset))
                }
                MemberOperator::Arrow => {
                    behind(self.selected(self.value(program, inner), *offset))
                }
            },
            _ => Err(FaultKind::Outside),
        }
    }

    /// The value of an expression, or the first fault.
    #[cycle(evaluation)]
    pub(crate) fn value(
        &self,
        program: &TypedProgram<Label>,
        expression: &Expr,
    ) -> Result<Value, FaultKind>
        ensures { result ≡ e.value (program_of program.now) (expr_of expression.now) (state_held self.now) }
    {
        match expression {
            Expr::Variable(ty, number, _) => {
                let position = self
                    .frame
                    .variable_position(&program.variables, *number as usize);
                self.value_at(ty, Ok(position))
            }
            Expr::Number(_, literal, _) => Ok(Value::Integer(literal.value)),
            Expr::Parenthesis(_, _, inner, _) => self.value(program, inner),
            Expr::Binary(_, left, operator, _, right) => self.binary(
                &program.structs,
                *operator,
                type_at(left),
                self.value(program, left),
                type_at(right),
                self.value(program, right),
            ),
            Expr::Prefix(ty, operator, _, inner) => match operator {
                PrefixOperator::Negate => {
                    negated_answer(type_at(inner), self.value(program, inner))
                }
                PrefixOperator::Complement => {
                    complemented_answer(type_at(inner), self.value(program, inner))
                }
                PrefixOperator::Dereference => {
                    self.value_at(ty, behind(self.value(program, inner)))
                }
                PrefixOperator::AddressOf => pointer_to(self.position(program, inner)),
                PrefixOperator::Not => Err(FaultKind::Outside),
            },
            Expr::Cast(ty, _, _, _, inner) => {
                converted_answer(type_at(inner), ty, self.value(program, inner))
            }
            Expr::Index(ty, base, _, index, _) => self.value_at(
                ty,
                behind(self.indexed(
                    &program.structs,
                    ty,
                    self.value(program, base),
                    type_at(index),
                    self.value(program, index),
                )),
            ),
            Expr::Member(ty, inner, operator, _, _, offset) => match operator {
                MemberOperator::Dot => self.value_at(
                    ty,
                    behind(self.selected(pointer_to(self.position(program, inner)), *offset)),
                ),
                MemberOperator::Arrow => self.value_at(
                    ty,
                    behind(self.selected(self.value(program, inner), *offset)),
                ),
            },
        }
    }

    fn indexed(
        &self,
        structs: &[StructType],
        element: &Ty,
        base: Result<Value, FaultKind>,
        ty: &Ty,
        index: Result<Value, FaultKind>,
    ) -> Result<Value, FaultKind>
        ensures { result ≡ o.both (λ x i. o.indexed (structs_held structs.now) (memory_held self.now.memory) (type_of element.now) x (integer_type (type_of ty.now)) i) base index }
    {
        match base {
            Err(kind) => Err(kind),
            Ok(pointer) => match index {
                Err(kind) => Err(kind),
                Ok(by) => match IntegerType::of(ty) {
                    None => Err(FaultKind::Outside),
                    Some(integer) => {
                        let size = counted_size(structs, element);
                        self.memory.stepped(size, false, pointer, integer, by)
                    }
                },
            },
        }
    }

    fn selected(&self, pointer: Result<Value, FaultKind>, offset: u32) -> Result<Value, FaultKind>
        ensures { result ≡ o.then_value pointer (λ x. m.moved (memory_held self.now.memory) x false offset) }
    {
        match pointer {
            Err(kind) => Err(kind),
            Ok(pointer) => self.memory.moved(pointer, false, u64::from(offset)),
        }
    }

    fn binary(
        &self,
        structs: &[StructType],
        operator: BinaryOperator,
        left: &Ty,
        x: Result<Value, FaultKind>,
        right: &Ty,
        y: Result<Value, FaultKind>,
    ) -> Result<Value, FaultKind>
        ensures { result ≡ o.both (o.operated (structs_held structs.now) (memory_held self.now.memory) operator (type_of left.now) (type_of right.now)) x y }
    {
        match x {
            Err(kind) => Err(kind),
            Ok(x) => match y {
                Err(kind) => Err(kind),
                Ok(y) => self.memory.operated(structs, operator, left, right, x, y),
            },
        }
    }
}
