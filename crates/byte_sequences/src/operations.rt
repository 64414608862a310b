//! The sequence of each operation.
ghost use Rattle.std.specs.Prelude.{◌≡◌, ◌≤◌, ◌<◌, ◌^◌, ◌∷◌, ◌++◌, [], OnOk, IfOk, true};
ghost use Rattle.cerco_middle.specs.Calls.{variable_held};
ghost use Rattle.rtl.specs.Code.Views.{node_of as code_node};
ghost use Rattle.byte_sequences.specs.Operations as spec;
ghost use Rattle.byte_sequences.specs.Words as words;
ghost use Rattle.byte_sequences.specs.Words.{vreg};
ghost use Rattle.byte_sequences.specs.Code.Views.{ops_of, vregs};
ghost use Rattle.byte_sequences.specs.Code.Numbers.{HasSmallNumbers};

use crate::arithmetic::{
    held_in, push_difference, push_each, push_product, push_quotient, push_remainder, push_sum,
    twice,
};
use crate::comparisons::{
    push_inequality, push_joined, push_order, push_signed_less, push_signed_up_to,
};
use crate::moves::{
    push_constant, push_extension, push_load, push_moves, push_port_reading, push_port_writing,
    push_reading, push_store,
};
use crate::shifts::{push_shift_left, push_shift_right};
pub use crate::words::MOST_NUMBERS;
use crate::words::{Word, argument, scratch, temporary, variable};
use cerco_base::NoMemory;
use cerco_middle::{CmOp, Held, RtOp};
use rtl::{Arith, Exit, Node, Ops, Vreg};
use std::alloc::Global;

// How a variable is held: in two bytes where there is no such variable.
fn held_of(held: &[Held], variable: u32) -> Held
    ensures { result ≡ variable_held held.now variable }
{
    match held.get(variable as usize) {
        Some(held) => *held,
        None => Held::W16,
    }
}

// Whether a number is one that has virtual registers.
fn is_small(number: u32) -> bool
    ensures { result ≡ true → number < 2 ^ 29 }
{
    number < MOST_NUMBERS
}

/// Whether there are virtual registers for all that the operation names.
pub fn has_small_numbers(op: RtOp) -> bool
    ensures { result ≡ true → HasSmallNumbers op }
{
    match op {
        RtOp::Const(t, _) => is_small(t),
        RtOp::Get {
            temporary: t,
            variable: x,
        } => is_small(t) && is_small(x),
        RtOp::Put {
            variable: x,
            temporary: t,
        } => is_small(x) && is_small(t),
        RtOp::Neg(t) => is_small(t),
        RtOp::Not(t) => is_small(t),
        RtOp::Narrow(_, t) => is_small(t),
        RtOp::Bin {
            operator: _,
            left: t,
            right: u,
        } => is_small(t) && is_small(u),
        RtOp::Shl(_, t) => is_small(t),
        RtOp::Shr(_, _, t) => is_small(t),
        RtOp::Load(_, t) => is_small(t),
        RtOp::Store {
            held: _,
            address: t,
            value: u,
        } => is_small(t) && is_small(u),
        RtOp::ReadPort(t) => is_small(t),
        RtOp::WritePort(t) => is_small(t),
        RtOp::Arg {
            held: _,
            first_byte: p,
            temporary: t,
        } => is_small(p) && is_small(t),
        RtOp::Call(_) => true,
        RtOp::Result(_, t) => is_small(t),
        RtOp::Label(_) => true,
        RtOp::Test {
            temporary: t,
            on_true: _,
            on_false: _,
        } => is_small(t),
        RtOp::Return => true,
        RtOp::ReturnValue(t) => is_small(t),
    }
}

/// The word becomes the operator's value.
pub fn push_operator(ops: &mut Ops<Vreg>, operator: CmOp, t: Word, u: Word) -> Result<(), NoMemory>
    ensures { OnOk result (ops_of ops.new ≡ ops_of ops.old ++ spec.operator_code (words.scratch vreg) operator (vregs t) (vregs u)) }
{
    match operator {
        CmOp::Add => push_sum(ops, t, u),
        CmOp::Sub => push_difference(ops, t, held_in(t), held_in(u)),
        CmOp::Mul => push_product(ops, t, u),
        CmOp::Div => push_quotient(ops, t, u),
        CmOp::Rem => push_remainder(ops, t, u),
        CmOp::And => push_each(ops, Arith::And, t, held_in(t), held_in(u)),
        CmOp::Or => push_each(ops, Arith::Or, t, held_in(t), held_in(u)),
        CmOp::Xor => push_each(ops, Arith::Xor, t, held_in(t), held_in(u)),
        CmOp::Eq => push_inequality(ops, t, u, true),
        CmOp::Ne => push_inequality(ops, t, u, false),
        CmOp::LtS => push_signed_less(ops, scratch(), t, u),
        CmOp::LtU => push_order(ops, t, held_in(t), held_in(u), false),
        CmOp::LeS => push_signed_up_to(ops, scratch(), t, u),
        CmOp::LeU => push_order(ops, t, held_in(u), held_in(t), true),
    }
}

// A function's result, if it has one, becomes what the word holds.
fn push_result(ops: &mut Ops<Vreg>, result_held: Option<Held>, word: Word) -> Result<(), NoMemory>
    ensures { OnOk result (ops_of ops.new ≡ ops_of ops.old ++ spec.result_code (words.argument vreg 0) result_held (vregs word)) }
{
    match result_held {
        None => Ok(()),
        Some(held) => push_moves(ops, held, argument(0), word),
    }
}

// The sequence of an operation of a function with these variables and this result.
fn push_operation(
    alloc: Global,
    ops: &mut Ops<Vreg>,
    held: &[Held],
    result_held: Option<Held>,
    op: RtOp,
) -> Result<(), NoMemory>
    requires { HasSmallNumbers op }
    ensures { OnOk result (ops_of ops.new ≡ ops_of ops.old ++ spec.operation_code vreg held.now result_held op) }
{
    match op {
        RtOp::Const(t, number) => push_constant(ops, temporary(t), number),
        RtOp::Get {
            temporary: t,
            variable: x,
        } => push_reading(ops, held_of(held, x), temporary(t), variable(x)),
        RtOp::Put {
            variable: x,
            temporary: t,
        } => push_moves(ops, held_of(held, x), variable(x), temporary(t)),
        RtOp::Neg(t) => push_difference(
            ops,
            temporary(t),
            twice(0, temporary(t)),
            held_in(temporary(t)),
        ),
        RtOp::Not(t) => push_difference(
            ops,
            temporary(t),
            twice(255, temporary(t)),
            held_in(temporary(t)),
        ),
        RtOp::Narrow(held, t) => push_extension(ops, held, temporary(t)),
        RtOp::Bin {
            operator,
            left,
            right,
        } => push_operator(ops, operator, temporary(left), temporary(right)),
        RtOp::Shl(bits, t) => push_shift_left(ops, bits, temporary(t)),
        RtOp::Shr(bits, keeps_sign, t) => push_shift_right(ops, bits, keeps_sign, temporary(t)),
        RtOp::Load(held, t) => push_load(alloc, ops, held, temporary(t)),
        RtOp::Store {
            held,
            address,
            value,
        } => push_store(alloc, ops, held, temporary(address), temporary(value)),
        RtOp::ReadPort(t) => push_port_reading(ops, temporary(t)),
        RtOp::WritePort(t) => push_port_writing(ops, temporary(t)),
        RtOp::Arg {
            held,
            first_byte,
            temporary: t,
        } => push_moves(ops, held, argument(first_byte), temporary(t)),
        RtOp::Result(held, t) => push_reading(ops, held, temporary(t), argument(0)),
        RtOp::Test {
            temporary: t,
            on_true: _,
            on_false: _,
        } => push_joined(ops, scratch(), temporary(t)),
        RtOp::ReturnValue(t) => push_result(ops, result_held, temporary(t)),
        RtOp::Call(_) | RtOp::Label(_) | RtOp::Return => Ok(()),
    }
}

// How an operation leaves its node, with this node next.
fn exit_of(op: RtOp, next: u32) -> Exit<Vreg>
    ensures { result ≡ spec.operation_exit vreg op next }
{
    match op {
        RtOp::Call(function) => Exit::Call(function, next),
        RtOp::Label(label) => Exit::Label(label, next),
        RtOp::Test {
            temporary: _,
            on_true,
            on_false,
        } => Exit::Test(scratch(), on_true, on_false),
        RtOp::Return => Exit::Return,
        RtOp::ReturnValue(_) => Exit::Return,
        _ => Exit::Next(next),
    }
}

/// The node of an operation, which goes on at the next one, in a function with these variables and this result.
pub fn node_of(
    alloc: Global,
    held: &[Held],
    result_held: Option<Held>,
    op: RtOp,
    next: u32,
) -> Result<Node<Vreg>, NoMemory>
    requires { HasSmallNumbers op }
    ensures { IfOk result (λ node. code_node node ≡ spec.operation_node vreg held.now result_held op next) }
{
    let mut ops = Ops::new(alloc);
    push_operation(alloc, &mut ops, held, result_held, op)?;
    Ok(Node {
        ops,
        exit: exit_of(op, next),
    })
}
