//! The nodes of a tree in postfix order: each is after its parts.

use crate::forms::ForMiddle;
use crate::modes::StructFront;
use clight_source::span::Span;
use clight_source::symbol::Literal;
use clight_source::tree::{
    BinaryOperator, CallTarget, Length, MemberOperator, Name, PrefixOperator, SignedNumber,
    Specifiers,
};

/// A node of the tree without its parts: one variant for each constructor of the tree and of its lists.
#[derive(Clone, Copy)]
pub enum Node {
    /// An identifier.
    Name(Name),
    /// An integer constant.
    Number(Literal, Span),
    /// Over an expression: its `(` and `)`.
    Parenthesis(Span, Span),
    /// Over two expressions.
    Binary(BinaryOperator, Span),
    /// Over an expression.
    Prefix(PrefixOperator, Span),
    /// Over an expression: `(`, the type, `)`.
    Cast(Span, Specifiers, Span),
    /// Over two expressions: `[` and `]`.
    Index(Span, Span),
    /// Over an expression: the member of it.
    Select(MemberOperator, Span, Name),
    /// A list of arguments begins.
    NoArguments,
    /// Over such a list and an expression: one argument more, with its `,`.
    Argument(Span),
    /// `;`
    Empty(Span),
    /// A list of statements begins.
    NoStatements,
    /// Over such a list and a statement: one statement more.
    Then,
    /// Over a list of statements: `{` and `}`.
    Block(Span, Span),
    /// Over target and value: `=` and `;`.
    Assign(Span, Span),
    /// Over a target: `=`, `P1` and `;`.
    ReadPort(Span, Span, Span),
    /// Over a value: `P1`, `=` and `;`.
    WritePort(Span, Span, Span),
    /// A call without arguments: `(`, `)` and `;`.
    CallAlone(Option<CallTarget>, Name, Span, Span, Span),
    /// Over a list of arguments and the last one: `(`, `)` and `;`.
    Call(Option<CallTarget>, Name, Span, Span, Span),
    /// Over a condition and a statement: `if`, `(` and `)`.
    If(Span, Span, Span),
    /// Over a condition and two statements: `if`, `(`, `)` and `else`.
    IfElse(Span, Span, Span, Span),
    /// Over a condition and a statement: `while`, `(` and `)`.
    While(Span, Span, Span),
    /// Over a statement and a condition: `do`, `while`, `(`, `)` and `;`.
    Do(Span, Span, Span, Span, Span),
    /// A `for` has no first or no last assignment.
    NoAssignment,
    /// Over target and value: an assignment of a `for`.
    Assignment(Span),
    /// A `for` has no condition.
    NoCondition,
    /// Over an expression: the condition of a `for`.
    Condition,
    /// Over an assignment, a condition, an assignment and a statement: `for` and its `)`.
    For(ForMiddle, Span),
    /// `break` and `;`
    Break(Span, Span),
    /// `continue` and `;`
    Continue(Span, Span),
    /// `return` and `;`
    Return(Span, Span),
    /// Over an expression: `return` and `;`.
    ReturnValue(Span, Span),
    /// A list of stars begins.
    NoStars,
    /// Over such a list: one star more.
    Star(Span),
    /// Over such a list: the words of a type and a name.
    Declared(Specifiers, Name),
    /// Over what is declared: a declaration without lengths.
    NoLengths,
    /// Over a declaration: one length more.
    Length(Length),
    /// A list of members begins.
    NoMembers,
    /// Over such a list and a declaration: one member more, with its `;`.
    Member(Span),
    /// Over a list of members: `}` and `;`.
    Struct(StructFront, Span, Span),
    /// A global has no first value.
    NoInitialiser,
    /// The first value of a global: `=` and a number.
    Single(Span, SignedNumber),
    /// A list of numbers begins.
    NoNumbers,
    /// Over such a list: one number more, with its `,`.
    EarlierNumber(SignedNumber, Span),
    /// Over such a list: `=`, `{`, the last number and `}`.
    Listed(Span, Span, SignedNumber, Span),
    /// Over a declaration and a first value: `;`.
    Global(Span),
    /// A list of parameters begins.
    NoParameters,
    /// Over such a list and what is declared: one parameter more, with its `,`.
    Parameter(Span),
    /// Over what is declared and an empty list of parameters: `(`, `void` and `)`.
    VoidHeader(Span, Span, Span),
    /// Over what is declared, a list of parameters and the last one: `(` and `)`.
    Header(Span, Span),
    /// Over a header: `;`.
    Prototype(Span),
    /// A list of locals begins.
    NoLocals,
    /// Over such a list and a declaration: one local more, with its `;`.
    Local(Span),
    /// Over such a list, a declaration and an expression: one local more, with its `=` and `;`.
    LocalValue(Span, Span),
    /// Over a header, a list of locals and one of statements: `{` and `}`.
    Function(Span, Span),
}
