//! Operators on translated operands.
ghost use Rattle.std.specs.Prelude.{◌≡◌, ℕ, ◌%◌, ◌^◌, ◌<◌, Some, None, IfOk, map};
ghost use Rattle.cerco_middle.specs.Code.Views.{expr_of as cm_of};
ghost use Rattle.cerco_middle.specs.Cminor.Trees as m;
ghost use Rattle.c_types.specs.Types.{type_of, struct_type_of, size_of};
ghost use Rattle.clight_syntax.specs.TypedTrees.{type_at};
ghost use Rattle.clight_syntax.specs.Code.TypedViews.{expr_of};
ghost use Rattle.cminor_gen.specs.Translation.Operators as t;
ghost use Rattle.cminor_gen.specs.Translation.Expressions as x;
ghost use Rattle.cminor_gen.specs.Code.Operands.{operand_held};

use c_types::{IntegerType, StructType, Ty, sizes};
use cerco_base::NoMemory;
use cerco_middle::{CmExpr, CmOp, Held};
use clight_source::tree::BinaryOperator;
use clight_syntax::typed::Expr;
use std::alloc::Global;

// ---- types

/// How a scalar of a type is held.
pub fn held_of(ty: &Ty) -> Held
    ensures { result ≡ t.held_of (type_of ty.now) }
{
    match ty {
        Ty::U8 => Held::U8,
        Ty::I8 => Held::I8,
        _ => Held::W16,
    }
}

/// The value at an address: an array or a struct is its address.
pub fn read_at(alloc: Global, ty: &Ty, address: CmExpr) -> Result<CmExpr, NoMemory>
    ensures { IfOk result (λ e. cm_of e ≡ t.read_at (type_of ty.now) (cm_of address)) }
{
    if ty.is_scalar() {
        Ok(CmExpr::Load(held_of(ty), Box::new(alloc, address)?))
    } else {
        Ok(address)
    }
}

/// A value converted to a type.
pub fn cast_to(alloc: Global, ty: &Ty, value: CmExpr) -> Result<CmExpr, NoMemory>
    ensures { IfOk result (λ e. cm_of e ≡ t.cast_to (type_of ty.now) (cm_of value)) }
{
    match ty {
        Ty::U8 => Ok(CmExpr::Narrow(Held::U8, Box::new(alloc, value)?)),
        Ty::I8 => Ok(CmExpr::Narrow(Held::I8, Box::new(alloc, value)?)),
        _ => Ok(value),
    }
}

fn low_word(number: u64) -> u16
    ensures { result ≡ number % 65536 }
{
    (number % 0x1_0000) as u16
}

/// The two low bytes of a number, as a value.
pub fn constant(number: u32) -> CmExpr
    ensures { cm_of result ≡ m.Const (number % 65536) }
{
    CmExpr::Const(low_word(u64::from(number)))
}

/// An operator and its operands.
pub fn binary(
    alloc: Global,
    operator: CmOp,
    left: CmExpr,
    right: CmExpr,
) -> Result<CmExpr, NoMemory>
    ensures { IfOk result (λ e. cm_of e ≡ m.Bin operator (cm_of left) (cm_of right)) }
{
    Ok(CmExpr::Bin {
        operator,
        left: Box::new(alloc, left)?,
        right: Box::new(alloc, right)?,
    })
}

// ---- steps of pointers

fn constant_of(e: &CmExpr) -> Option<u16>
    ensures { result ≡ t.constant_of (cm_of e.now) }
{
    match e {
        CmExpr::Const(number) => Some(*number),
        _ => None,
    }
}

/// An address so many bytes further on, as one number where it is a number.
pub fn with_offset(alloc: Global, address: CmExpr, offset: u16) -> Result<CmExpr, NoMemory>
    ensures { IfOk result (λ e. cm_of e ≡ t.with_offset (cm_of address) offset) }
{
    if let Some(number) = constant_of(&address) {
        return Ok(CmExpr::Const(low_word(u64::from(number) + u64::from(offset))));
    }
    if offset == 0 {
        Ok(address)
    } else {
        binary(alloc, CmOp::Add, address, CmExpr::Const(offset))
    }
}

/// An address so many bytes further on, of which the two low bytes count.
pub fn member(alloc: Global, address: CmExpr, offset: u32) -> Result<CmExpr, NoMemory>
    ensures { IfOk result (λ e. cm_of e ≡ t.with_offset (cm_of address) (offset % 65536)) }
{
    with_offset(alloc, address, low_word(u64::from(offset)))
}

// So many bytes further on or back.
fn offset_by(back: bool, bytes: u64) -> u16
    ensures { result ≡ t.offset_by back bytes }
{
    let forward = bytes % 0x1_0000;
    if back {
        low_word(0x1_0000 - forward)
    } else {
        low_word(forward)
    }
}

fn power(k: u8) -> u32
    requires { k < 16 }
    ensures { result ≡ 2 ^ k }
{
    1_u32 << k
}

// The exponent of 2 that gives a size, where one below 16 does.
fn shift_for(size: u32) -> Option<u8>
    ensures { result ≡ t.shift_for size }
{
    for k in 0..16_u8 {
        if power(k) == size {
            return Some(k);
        }
    }
    None
}

fn shifted(alloc: Global, k: u8, value: CmExpr) -> Result<CmExpr, NoMemory>
    ensures { IfOk result (λ e. cm_of e ≡ t.shifted k (cm_of value)) }
{
    if k == 0 {
        Ok(value)
    } else {
        Ok(CmExpr::Shl(k, Box::new(alloc, value)?))
    }
}

fn negative(alloc: Global, value: CmExpr) -> Result<CmExpr, NoMemory>
    ensures { IfOk result (λ e. cm_of e ≡ m.Neg (cm_of value)) }
{
    Ok(CmExpr::Neg(Box::new(alloc, value)?))
}

// Over elements whose size is a power of 2.
fn shift_step(
    alloc: Global,
    k: u8,
    back: bool,
    pointer: CmExpr,
    value: CmExpr,
) -> Result<CmExpr, NoMemory>
    ensures { (size : ℕ) → IfOk result (λ e. cm_of e ≡ t.step_over (Some k) size back (cm_of pointer) (cm_of value)) }
{
    let bytes = shifted(alloc, k, value)?;
    let operator = if back { CmOp::Sub } else { CmOp::Add };
    binary(alloc, operator, pointer, bytes)
}

// Over elements of another size, by an unsigned byte. The product comes first, so that it needs no temporary beside the pointer.
fn product_step(
    alloc: Global,
    size: u32,
    back: bool,
    pointer: CmExpr,
    value: CmExpr,
) -> Result<CmExpr, NoMemory>
    ensures { IfOk result (λ e. cm_of e ≡ t.step_over None size back (cm_of pointer) (cm_of value)) }
{
    let product = binary(alloc, CmOp::Mul, value, constant(size))?;
    if back {
        let bytes = negative(alloc, product)?;
        return binary(alloc, CmOp::Add, bytes, pointer);
    }
    binary(alloc, CmOp::Add, product, pointer)
}

/// A step of a pointer over elements of a size, on or back, by an operand's number or else its value.
pub fn step(
    alloc: Global,
    number: Option<u32>,
    size: u32,
    back: bool,
    pointer: CmExpr,
    value: CmExpr,
) -> Result<CmExpr, NoMemory>
    ensures { IfOk result (λ e. cm_of e ≡ t.step number size back (cm_of pointer) (cm_of value)) }
{
    if let Some(number) = number {
        let bytes = u64::from(number) * u64::from(size);
        return with_offset(alloc, pointer, offset_by(back, bytes));
    }
    match shift_for(size) {
        Some(k) => shift_step(alloc, k, back, pointer, value),
        None => product_step(alloc, size, back, pointer, value),
    }
}

/// How many bytes a type has.
///
/// # Errors
///
/// Out of memory, also where no `u32` counts them.
pub fn bytes_of(structs: &[StructType], ty: &Ty) -> Result<u32, NoMemory>
    ensures { IfOk result (λ n. n ≡ size_of (map struct_type_of structs.now) (type_of ty.now)) }
{
    match sizes::size_of(structs, ty) {
        Some(size) => Ok(size),
        None => Err(NoMemory),
    }
}

/// The bytes of what a pointer of this type points to.
pub fn step_size(structs: &[StructType], ty: &Ty) -> Result<Option<u32>, NoMemory>
    ensures { IfOk result (λ n. n ≡ x.step_size (map struct_type_of structs.now) (type_of ty.now)) }
{
    match ty {
        Ty::Pointer(target) => Ok(Some(bytes_of(structs, target)?)),
        _ => Ok(None),
    }
}

// ---- operators on two operands

/// What is known of an operand besides its value.
#[derive(Clone, Copy)]
pub struct Operand {
    /// Its type, where it is an integer.
    pub integer: Option<IntegerType>,
    /// Its number, where it is one.
    pub number: Option<u32>,
}

/// The type that an expression carries.
pub fn type_at(e: &Expr) -> &Ty
    ensures { type_of result.now ≡ type_at (expr_of e.now) }
{
    match e {
        Expr::Variable(ty, _, _) => ty,
        Expr::Number(ty, _, _) => ty,
        Expr::Parenthesis(ty, _, _, _) => ty,
        Expr::Binary(ty, _, _, _, _) => ty,
        Expr::Prefix(ty, _, _, _) => ty,
        Expr::Cast(ty, _, _, _, _) => ty,
        Expr::Index(ty, _, _, _, _) => ty,
        Expr::Member(ty, _, _, _, _, _) => ty,
    }
}

/// The number that an expression is, in parentheses or not.
pub fn as_number(e: &Expr) -> Option<u32>
    ensures { result ≡ x.as_number (expr_of e.now) }
{
    match e {
        Expr::Number(_, number, _) => Some(number.value),
        Expr::Parenthesis(_, _, inner, _) => as_number(inner),
        _ => None,
    }
}

impl Operand {
    /// What is known of an expression as an operand.
    pub fn of(e: &Expr) -> Operand
        ensures { operand_held result ≡ x.operand_of (expr_of e.now) }
    {
        Operand {
            integer: IntegerType::of(type_at(e)),
            number: as_number(e),
        }
    }
}

// Whether two operands are compared as signed numbers.
fn signed_between(left: Option<IntegerType>, right: Option<IntegerType>) -> bool
    ensures { result ≡ t.signed_between left right }
{
    match (left, right) {
        (Some(left), Some(right)) => left.common(right).signed,
        (_, _) => false,
    }
}

fn signed_at(integer: Option<IntegerType>) -> bool
    ensures { result ≡ t.signed_at integer }
{
    match integer {
        Some(integer) => integer.signed,
        None => false,
    }
}

fn less(signed: bool) -> CmOp
    ensures { result ≡ t.less signed }
{
    if signed { CmOp::LtS } else { CmOp::LtU }
}

fn at_most(signed: bool) -> CmOp
    ensures { result ≡ t.at_most signed }
{
    if signed { CmOp::LeS } else { CmOp::LeU }
}

fn bits_of(number: Option<u32>) -> u8
    ensures { result ≡ t.bits_of number }
{
    match number {
        Some(number) => (number % 0x100) as u8,
        None => 0,
    }
}

// A sum or a difference: over elements of so many bytes where it is a pointer.
fn sum(
    alloc: Global,
    size: Option<u32>,
    back: bool,
    sides: (Operand, Operand),
    left: CmExpr,
    right: CmExpr,
) -> Result<CmExpr, NoMemory>
    ensures { IfOk result (λ e. cm_of e ≡ t.sum size back (operand_held sides.0) (operand_held sides.1) (cm_of left) (cm_of right)) }
{
    let Some(size) = size else {
        let operator = if back { CmOp::Sub } else { CmOp::Add };
        return binary(alloc, operator, left, right);
    };
    match sides.0.integer {
        Some(_) => step(alloc, sides.0.number, size, back, right, left),
        None => step(alloc, sides.1.number, size, back, left, right),
    }
}

fn shift_left(alloc: Global, k: u8, value: CmExpr) -> Result<CmExpr, NoMemory>
    ensures { IfOk result (λ e. cm_of e ≡ m.Shl k (cm_of value)) }
{
    Ok(CmExpr::Shl(k, Box::new(alloc, value)?))
}

fn shift_right(alloc: Global, k: u8, arithmetic: bool, value: CmExpr) -> Result<CmExpr, NoMemory>
    ensures { IfOk result (λ e. cm_of e ≡ m.Shr k arithmetic (cm_of value)) }
{
    Ok(CmExpr::Shr(k, arithmetic, Box::new(alloc, value)?))
}

/// An operator on two operands, where a sum of this size is over elements of so many bytes.
pub fn operation(
    alloc: Global,
    size: Option<u32>,
    operator: BinaryOperator,
    sides: (Operand, Operand),
    left: CmExpr,
    right: CmExpr,
) -> Result<CmExpr, NoMemory>
    ensures { IfOk result (λ e. cm_of e ≡ t.operation size operator (operand_held sides.0) (operand_held sides.1) (cm_of left) (cm_of right)) }
{
    let signed = signed_between(sides.0.integer, sides.1.integer);
    match operator {
        BinaryOperator::Add => sum(alloc, size, false, sides, left, right),
        BinaryOperator::Subtract => sum(alloc, size, true, sides, left, right),
        BinaryOperator::Multiply => binary(alloc, CmOp::Mul, left, right),
        BinaryOperator::Divide => binary(alloc, CmOp::Div, left, right),
        BinaryOperator::Remainder => binary(alloc, CmOp::Rem, left, right),
        BinaryOperator::BitAnd => binary(alloc, CmOp::And, left, right),
        BinaryOperator::BitOr => binary(alloc, CmOp::Or, left, right),
        BinaryOperator::BitXor => binary(alloc, CmOp::Xor, left, right),
        BinaryOperator::ShiftLeft => shift_left(alloc, bits_of(sides.1.number), left),
        BinaryOperator::ShiftRight => {
            let arithmetic = signed_at(sides.0.integer);
            shift_right(alloc, bits_of(sides.1.number), arithmetic, left)
        }
        BinaryOperator::Equal => binary(alloc, CmOp::Eq, left, right),
        BinaryOperator::NotEqual => binary(alloc, CmOp::Ne, left, right),
        BinaryOperator::Less => binary(alloc, less(signed), left, right),
        BinaryOperator::Greater => binary(alloc, less(signed), right, left),
        BinaryOperator::LessOrEqual => binary(alloc, at_most(signed), left, right),
        BinaryOperator::GreaterOrEqual => binary(alloc, at_most(signed), right, left),
        // These two are in conditions alone.
        BinaryOperator::LogicalAnd | BinaryOperator::LogicalOr => Ok(left),
    }
}
