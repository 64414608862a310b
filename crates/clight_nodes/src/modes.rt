//! What may come next.

use crate::forms::{ForMiddle, ForStart};
use clight_source::span::Span;
use clight_source::symbol::Literal;
use clight_source::tree::{CallTarget, MemberOperator, Name, SignedNumber, Specifiers};

/// `struct tag {`
#[derive(Clone, Copy)]
pub struct StructFront {
    pub keyword: Span,
    pub tag: Name,
    pub left: Span,
}

/// What a declaration is a part of.
#[derive(Clone, Copy)]
pub enum Owner {
    /// The source itself.
    InSource,
    /// A struct with the members so far.
    InStruct(StructFront),
    /// `function (`
    InFirstParameter(Span),
    /// `function (` and the parameters so far, one at least.
    InLaterParameter(Span),
    /// The `{` of a function, and its locals so far.
    InFunction(Span),
}

/// A simple statement without its `;`.
#[derive(Clone, Copy)]
pub enum Pending {
    /// A call without arguments.
    CallAlone(Option<CallTarget>, Name, Span, Span),
    /// A call with arguments.
    Call(Option<CallTarget>, Name, Span, Span),
    /// `target = P1`
    Read(Span, Span),
    /// `do body while (condition)`
    Do(Span, Span, Span, Span),
    /// `break`
    Break(Span),
    /// `continue`
    Continue(Span),
}

/// What may come next.
#[derive(Clone, Copy)]
pub enum Mode {
    /// An operand is due.
    Operand,
    /// An operand is there.
    AfterOperand,
    /// After `.` or `->`: the name of a member is due.
    MemberName(MemberOperator, Span),
    /// After `( struct`: a tag is due.
    CastTag(Span, Span),
    /// After `(` and the words of a type.
    CastWords(Span, Specifiers),
    /// Something in a statement is due.
    Statement(StatementMode),
    /// Something in a declaration is due.
    Declaration(DeclarationMode),
    /// An item is whole.
    Finished,
    /// No program goes on so.
    Refused,
}

/// What may come next in a statement.
#[derive(Clone, Copy)]
pub enum StatementMode {
    /// A statement may begin, or what holds statements end.
    Start,
    /// A statement is there, in an `if`: `else` may come.
    MayElse,
    /// After `if`: `(` is due.
    IfWord(Span),
    /// After `while`: `(` is due.
    WhileWord(Span),
    /// After `do body`: `while` is due.
    DoBody(Span),
    /// After `do body while`: `(` is due.
    DoWhile(Span, Span),
    /// After `for`: `(` is due.
    ForWord(Span),
    /// After `for (`: an assignment or `;`.
    ForFirst(Span, Span),
    /// After `for (first;`: a condition or `;`.
    ForCondition(ForStart),
    /// After `for (first; condition;`: an assignment or `)`.
    ForStep(ForMiddle),
    /// After `return`: an expression or `;`.
    ReturnWord(Span),
    /// After `P1` at a statement's start: `=` is due.
    PortWord(Span),
    /// After `function (`: an argument or `)`.
    FirstArgument(Option<CallTarget>, Name, Span),
    /// `;` is due.
    End(Pending),
}

/// What may come next in a declaration.
#[derive(Clone, Copy)]
pub enum DeclarationMode {
    /// An item may begin, or the text end.
    ItemStart,
    /// The type of a declaration is due.
    TypeStart(Owner),
    /// After `struct`: a tag is due.
    TagName(Owner, Span),
    /// After words of a type.
    Words(Owner, Specifiers),
    /// After a star.
    Stars(Owner, Specifiers),
    /// After the name that is declared.
    Named(Owner),
    /// After a length.
    Lengths(Owner),
    /// After `[`: a number is due.
    LengthNumber(Owner, Span),
    /// After that number: `]` is due.
    LengthEnd(Owner, Span, Literal, Span),
    /// After a member: another one, or `}`.
    Members(StructFront),
    /// After the `}` of a struct: `;` is due.
    StructEnd(StructFront, Span),
    /// In the first value of a global.
    Initialiser(InitialiserMode),
    /// After the `)` of a function's parameters: `;` or `{`.
    HeaderEnd,
}

/// What may come next in the first value of a global.
#[derive(Clone, Copy)]
pub enum InitialiserMode {
    /// After `=`: `{`, `-` or a number.
    Start(Span),
    /// After `-`: a number is due.
    Number(Span, Span),
    /// After the whole: `;` is due.
    End,
    /// In a list: `-` or a number.
    ListStart(Span, Span),
    /// In a list, after `-`: a number is due.
    ListNumber(Span, Span, Span),
    /// In a list, after a number: `,` or `}`.
    ListEnd(Span, Span, SignedNumber),
}
