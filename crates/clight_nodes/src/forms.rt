//! The forms that are open. Their parts are among the nodes that were emitted.

use clight_source::span::Span;
use clight_source::tree::{BinaryOperator, CallTarget, Name, PrefixOperator, Specifiers};

/// `for (first;`
#[derive(Clone, Copy)]
pub struct ForStart {
    pub keyword: Span,
    pub left: Span,
    pub semicolon: Span,
}

/// `for (first; condition;`
#[derive(Clone, Copy)]
pub struct ForMiddle {
    pub start: ForStart,
    pub semicolon: Span,
}

/// Where an assignment is.
#[derive(Clone, Copy)]
pub enum Place {
    /// It is a statement.
    AsStatement,
    /// After `for (`.
    AsFirst(Span, Span),
    /// After `for (first; condition;`.
    AsStep(ForMiddle),
}

/// A form that is open.
#[derive(Clone, Copy)]
pub enum Form {
    /// A left operand and a binary operator.
    Binary(BinaryOperator, Span),
    /// A prefix operator.
    Prefix(PrefixOperator, Span),
    /// `(type)`
    Cast(Span, Specifiers, Span),
    /// `(`
    Parenthesis(Span),
    /// `base [`
    Index(Span),
    /// The left side of an assignment, or the name of a function, is due.
    Target(Place),
    /// `target =`
    Value(Place, Span),
    /// `P1 =`
    PortValue(Span, Span),
    /// `target = function (` and the arguments so far.
    Arguments(Option<CallTarget>, Name, Span),
    /// `if (`
    IfTest(Span, Span),
    /// `while (`
    WhileTest(Span, Span),
    /// `do body while (`
    DoTest(Span, Span, Span),
    /// `for (first;`
    Condition(ForStart),
    /// `return`
    Return(Span),
    /// The `{` of a function, its locals so far, and `declaration =`.
    LocalValue(Span, Span),
    /// `if (condition)`
    If(Span, Span, Span),
    /// `if (condition) arm else`
    Else(Span, Span, Span, Span),
    /// `while (condition)`
    While(Span, Span, Span),
    /// `do`
    Do(Span),
    /// `for (first; condition; step)`
    For(ForMiddle, Span),
    /// `{` and the statements so far.
    Block(Span),
    /// The `{` of a function and its locals so far, before its first statement.
    Locals(Span),
    /// The `{` of a function, its locals and its statements so far, one at least.
    Body(Span),
}
