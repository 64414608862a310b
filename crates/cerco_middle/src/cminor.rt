//! Cminor: structured statements over numbered variables and a flat external RAM, in which the source's places are addresses.

use crate::operators::{CmOp, Held, HeldList};
use cerco_base::{CallOrder, Label, StartBytes};

/// An expression. Its value has two bytes, and its evaluation changes nothing.
#[derive(Drop)]
#[cycle(cm_expression)]
pub enum CmExpr {
    /// The number.
    Const(u16),
    /// The value of the variable with this number.
    Var(u32),
    /// What is held in external RAM at the address.
    Load(Held, Box<CmExpr>),
    /// The negative, modulo.
    Neg(Box<CmExpr>),
    /// The complement.
    Not(Box<CmExpr>),
    /// The part that is held so.
    Narrow(Held, Box<CmExpr>),
    /// The operator's value.
    Bin {
        operator: CmOp,
        left: Box<CmExpr>,
        right: Box<CmExpr>,
    },
    /// The value shifted left by so many bits.
    Shl(u8, Box<CmExpr>),
    /// The value shifted right by so many bits. It keeps its sign where the flag is true.
    Shr(u8, bool, Box<CmExpr>),
}

/// A condition.
#[derive(Drop)]
#[cycle(cm_condition)]
pub enum CmCond {
    /// The value isn't 0.
    Test(CmExpr),
    /// The condition is false.
    Not(Box<CmCond>),
    /// Both are true. The right one is only evaluated where the left one is true. The labels are after the left one.
    Both {
        left: Box<CmCond>,
        on_true: Label,
        on_false: Label,
        right: Box<CmCond>,
    },
    /// One is true. The right one is only evaluated where the left one is false. The labels are after the left one.
    Either {
        left: Box<CmCond>,
        on_true: Label,
        on_false: Label,
        right: Box<CmCond>,
    },
}

/// Statements in their order.
pub type CmList = Vec<CmStmt>;

/// The arguments of a call in their order.
pub type CmArgs = Vec<CmExpr>;

/// A statement.
#[derive(Drop)]
#[cycle(cm_statement)]
pub enum CmStmt {
    /// The statements, one after the other.
    Seq(CmList),
    /// The variable becomes the value, of which it keeps what it holds.
    Set(u32, CmExpr),
    /// The value is stored in external RAM at the address.
    Store {
        held: Held,
        address: CmExpr,
        value: CmExpr,
    },
    /// The variable becomes the byte that port 1 shows.
    ReadPort(u32),
    /// The low byte of the value is written to port 1.
    WritePort(CmExpr),
    /// The variable that takes the result, if any, the function, its arguments, and the label after the call.
    Call(Option<u32>, u32, CmArgs, Label),
    /// The labels are before the two branches.
    If {
        condition: CmCond,
        on_true: Label,
        true_branch: Box<CmStmt>,
        on_false: Label,
        false_branch: Box<CmStmt>,
    },
    /// As long as the condition is true, the body and then the step. No condition is a true one. The label of the body is before
    /// it, the exit label after the loop.
    Loop {
        condition: Option<CmCond>,
        body_label: Label,
        body: Box<CmStmt>,
        step: Box<CmStmt>,
        exit_label: Label,
    },
    /// The body, and again as long as the condition is true. The first label is on the way back, the second after the loop.
    Do {
        body: Box<CmStmt>,
        condition: CmCond,
        repeat_label: Label,
        exit_label: Label,
    },
    /// The innermost loop is left.
    Break,
    /// The body of the innermost loop is left.
    Continue,
    /// The function returns, with this result if any.
    Return(Option<CmExpr>),
}

/// A function.
#[derive(Drop)]
pub struct CmFunction {
    /// How each variable is held, the parameters first.
    pub held: HeldList,
    /// How many parameters it has.
    pub params: u32,
    /// How its result is held, if it has one.
    pub result: Option<Held>,
    /// The label at its start.
    pub label: Label,
    pub body: CmStmt,
}

/// Functions, by number.
pub type CmFunctions = Vec<CmFunction>;

/// A program.
#[derive(Drop)]
pub struct Cminor {
    pub functions: CmFunctions,
    /// The functions in the order of their calls.
    pub calls: CallOrder,
    /// The number of `main`.
    pub main: u32,
    /// The bytes that external RAM has at first, with their addresses.
    pub start: StartBytes,
}
