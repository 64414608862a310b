//! The operators on values.
ghost use Rattle.std.specs.Prelude.{◌≡◌, ℕ, ◌^◌, min};
ghost use Rattle.c_types.specs.Types.{type_of, size_of};
ghost use Rattle.c_types.specs.Kinds.{integer_type, target_of};
ghost use Rattle.clight_values.specs.Operators as o;
ghost use Rattle.clight_values.specs.Code.Views.{memory_held, structs_held};

use crate::integer::{combined, complement, converted, difference, truth};
use crate::memory::Memory;
use crate::value::Value;
use c_types::sizes::size_of as bytes_in;
use c_types::{IntegerType, StructType, Ty};
use cerco_base::FaultKind;
use clight_source::tree::BinaryOperator;

/// How many bytes a type has, counted up to 2 to the 32nd.
pub fn counted_size(structs: &[StructType], ty: &Ty) -> u64
    ensures { result ≡ min (size_of (structs_held structs.now) (type_of ty.now)) (2 ^ 32) }
{
    match bytes_in(structs, ty) {
        Some(bytes) => u64::from(bytes),
        None => 0x1_0000_0000,
    }
}

// How many bytes the target of a pointer or the element of an array has, counted up to 2 to the 32nd.
fn target_size(structs: &[StructType], ty: &Ty) -> u64
    ensures { result ≡ min (size_of (structs_held structs.now) (target_of (type_of ty.now))) (2 ^ 32) }
{
    match ty {
        Ty::Pointer(target) => counted_size(structs, target),
        Ty::Array(element, _) => counted_size(structs, element),
        _ => 0,
    }
}

fn as_pointer(value: Value) -> Result<Value, FaultKind>
    ensures { result ≡ o.as_pointer value }
{
    match value {
        Value::Integer(0) => Ok(Value::Null),
        Value::Integer(_) => Err(FaultKind::Outside),
        Value::Null => Ok(Value::Null),
        Value::Pointer(at) => Ok(Value::Pointer(at)),
    }
}

fn converted_value(from: IntegerType, to: IntegerType, value: Value) -> Result<Value, FaultKind>
    ensures { result ≡ o.converted_value from to value }
{
    match value {
        Value::Integer(n) => Ok(Value::Integer(converted(from, to, n))),
        _ => Err(FaultKind::Outside),
    }
}

/// A value of the first type as one of the second.
pub fn assigned_value(from: &Ty, to: &Ty, value: Value) -> Result<Value, FaultKind>
    ensures { result ≡ o.assigned_value (type_of from.now) (type_of to.now) value }
{
    match to {
        Ty::Pointer(_) => as_pointer(value),
        _ => match IntegerType::of(from) {
            None => Err(FaultKind::Outside),
            Some(source) => match IntegerType::of(to) {
                None => Err(FaultKind::Outside),
                Some(target) => converted_value(source, target, value),
            },
        },
    }
}

fn answer_of(outcome: Result<bool, FaultKind>) -> Result<Value, FaultKind>
    ensures { result ≡ o.answer_of outcome }
{
    match outcome {
        Err(kind) => Err(kind),
        Ok(b) => Ok(truth(b)),
    }
}

fn opposite(outcome: Result<bool, FaultKind>) -> Result<bool, FaultKind>
    ensures { result ≡ o.opposite outcome }
{
    match outcome {
        Err(kind) => Err(kind),
        Ok(b) => Ok(!b),
    }
}

fn of_integers(
    operator: BinaryOperator,
    left: IntegerType,
    right: IntegerType,
    x: Value,
    y: Value,
) -> Result<Value, FaultKind>
    ensures { result ≡ o.of_integers operator left right x y }
{
    match x {
        Value::Integer(m) => match y {
            Value::Integer(n) => combined(operator, left, right, m, n),
            _ => Err(FaultKind::Outside),
        },
        _ => Err(FaultKind::Outside),
    }
}

impl<'a> Memory<'a> {
    fn of_pointer_and_integer(
        &self,
        operator: BinaryOperator,
        size: u64,
        pointer: Value,
        integer: IntegerType,
        by: Value,
    ) -> Result<Value, FaultKind>
        ensures { (n : ℕ) → size ≡ min n (2 ^ 32) → result ≡ o.of_pointer_and_integer (memory_held self.now) operator n pointer integer by }
    {
        match operator {
            BinaryOperator::Add => self.stepped(size, false, pointer, integer, by),
            BinaryOperator::Subtract => self.stepped(size, true, pointer, integer, by),
            BinaryOperator::Equal => answer_of(self.equal(pointer, by)),
            BinaryOperator::NotEqual => answer_of(opposite(self.equal(pointer, by))),
            _ => Err(FaultKind::Outside),
        }
    }

    fn of_integer_and_pointer(
        &self,
        operator: BinaryOperator,
        size: u64,
        integer: IntegerType,
        by: Value,
        pointer: Value,
    ) -> Result<Value, FaultKind>
        ensures { (n : ℕ) → size ≡ min n (2 ^ 32) → result ≡ o.of_integer_and_pointer (memory_held self.now) operator n integer by pointer }
    {
        match operator {
            BinaryOperator::Add => self.stepped(size, false, pointer, integer, by),
            BinaryOperator::Equal => answer_of(self.equal(by, pointer)),
            BinaryOperator::NotEqual => answer_of(opposite(self.equal(by, pointer))),
            _ => Err(FaultKind::Outside),
        }
    }

    fn of_pointers(&self, operator: BinaryOperator, p: Value, q: Value) -> Result<Value, FaultKind>
        ensures { result ≡ o.of_pointers (memory_held self.now) operator p q }
    {
        match operator {
            BinaryOperator::Equal => answer_of(self.equal(p, q)),
            BinaryOperator::NotEqual => answer_of(opposite(self.equal(p, q))),
            BinaryOperator::Less => answer_of(self.less(p, q)),
            BinaryOperator::Greater => answer_of(self.less(q, p)),
            BinaryOperator::LessOrEqual => answer_of(opposite(self.less(q, p))),
            BinaryOperator::GreaterOrEqual => answer_of(opposite(self.less(p, q))),
            _ => Err(FaultKind::Outside),
        }
    }

    /// An operator on values of two types.
    pub fn operated(
        &self,
        structs: &[StructType],
        operator: BinaryOperator,
        left: &Ty,
        right: &Ty,
        x: Value,
        y: Value,
    ) -> Result<Value, FaultKind>
        ensures { result ≡ o.operated (structs_held structs.now) (memory_held self.now) operator (type_of left.now) (type_of right.now) x y }
    {
        match IntegerType::of(left) {
            Some(source) => match IntegerType::of(right) {
                Some(other) => of_integers(operator, source, other, x, y),
                None => {
                    let size = target_size(structs, right);
                    self.of_integer_and_pointer(operator, size, source, x, y)
                }
            },
            None => match IntegerType::of(right) {
                Some(other) => {
                    let size = target_size(structs, left);
                    self.of_pointer_and_integer(operator, size, x, other, y)
                }
                None => self.of_pointers(operator, x, y),
            },
        }
    }
}

fn negated(integer: Option<IntegerType>, value: Value) -> Result<Value, FaultKind>
    ensures { result ≡ o.negated integer value }
{
    match integer {
        None => Err(FaultKind::Outside),
        Some(ty) => match value {
            Value::Integer(n) => {
                let promoted = ty.promoted();
                Ok(Value::Integer(difference(promoted, 0, converted(ty, promoted, n))))
            }
            _ => Err(FaultKind::Outside),
        },
    }
}

fn complemented(integer: Option<IntegerType>, value: Value) -> Result<Value, FaultKind>
    ensures { result ≡ o.complemented integer value }
{
    match integer {
        None => Err(FaultKind::Outside),
        Some(ty) => match value {
            Value::Integer(n) => {
                let promoted = ty.promoted();
                Ok(Value::Integer(complement(promoted, converted(ty, promoted, n))))
            }
            _ => Err(FaultKind::Outside),
        },
    }
}

/// The negation of a value of this type (6.5.3.3), or its fault.
pub fn negated_answer(ty: &Ty, value: Result<Value, FaultKind>) -> Result<Value, FaultKind>
    ensures { result ≡ o.then_value value (o.negated (integer_type (type_of ty.now))) }
{
    match value {
        Err(kind) => Err(kind),
        Ok(value) => negated(IntegerType::of(ty), value),
    }
}

/// The complement of a value of this type (6.5.3.3), or its fault.
pub fn complemented_answer(ty: &Ty, value: Result<Value, FaultKind>) -> Result<Value, FaultKind>
    ensures { result ≡ o.then_value value (o.complemented (integer_type (type_of ty.now))) }
{
    match value {
        Err(kind) => Err(kind),
        Ok(value) => complemented(IntegerType::of(ty), value),
    }
}

/// A value of the first type as one of the second, or its fault.
pub fn converted_answer(
    from: &Ty,
    to: &Ty,
    value: Result<Value, FaultKind>,
) -> Result<Value, FaultKind>
    ensures { result ≡ o.then_value value (o.assigned_value (type_of from.now) (type_of to.now)) }
{
    match value {
        Err(kind) => Err(kind),
        Ok(value) => assigned_value(from, to, value),
    }
}
