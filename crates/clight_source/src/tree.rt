//! The syntax tree of a source: one variant or field for each form of the grammar. Each form keeps the
//! places of its own tokens; parentheses are a form.
//!
//! The rules are those of `docs/language.md`, after ISO/IEC 9899:1999, 6.5 to 6.9.

use crate::names::Names;
use crate::span::Span;
use crate::symbol::Literal;

/// A use or a declaration of an identifier.
#[derive(Clone, Copy)]
pub struct Name {
    /// The identifier's number.
    pub number: u32,
    /// Where it stands.
    pub span: Span,
}

/// The binary operators (ISO/IEC 9899:1999, 6.5.5 to 6.5.14), the loosest first.
#[derive(Clone, Copy)]
pub enum BinaryOperator {
    /// `||`
    LogicalOr,
    /// `&&`
    LogicalAnd,
    /// `|`
    BitOr,
    /// `^`
    BitXor,
    /// `&`
    BitAnd,
    /// `==`
    Equal,
    /// `!=`
    NotEqual,
    /// `<`
    Less,
    /// `>`
    Greater,
    /// `<=`
    LessOrEqual,
    /// `>=`
    GreaterOrEqual,
    /// `<<`
    ShiftLeft,
    /// `>>`
    ShiftRight,
    /// `+`
    Add,
    /// `-`
    Subtract,
    /// `*`
    Multiply,
    /// `/`
    Divide,
    /// `%`
    Remainder,
}

/// The prefix operators (ISO/IEC 9899:1999, 6.5.3).
#[derive(Clone, Copy)]
pub enum PrefixOperator {
    /// `-`
    Negate,
    /// `~`
    Complement,
    /// `!`
    Not,
    /// `*`
    Dereference,
    /// `&`
    AddressOf,
}

/// How a member is named (ISO/IEC 9899:1999, 6.5.2.3).
#[derive(Clone, Copy)]
pub enum MemberOperator {
    /// `.`
    Dot,
    /// `->`
    Arrow,
}

/// The words of a type (ISO/IEC 9899:1999, 6.7.2), with the place of each.
#[derive(Clone, Copy)]
pub enum Specifiers {
    /// `void`
    Void(Span),
    /// `struct` and a tag
    Struct(Span, Name),
    /// `char`
    Char(Span),
    /// `signed char`
    SignedChar(Span, Span),
    /// `unsigned char`
    UnsignedChar(Span, Span),
    /// `int`
    Int(Span),
    /// `signed`
    Signed(Span),
    /// `signed int`
    SignedInt(Span, Span),
    /// `unsigned`
    Unsigned(Span),
    /// `unsigned int`
    UnsignedInt(Span, Span),
    /// `long`
    Long(Span),
    /// `long int`
    LongInt(Span, Span),
    /// `signed long`
    SignedLong(Span, Span),
    /// `signed long int`
    SignedLongInt(Span, Span, Span),
    /// `unsigned long`
    UnsignedLong(Span, Span),
    /// `unsigned long int`
    UnsignedLongInt(Span, Span, Span),
}

/// An expression.
#[derive(Drop)]
#[cycle(expression)]
pub enum Expr {
    /// An identifier.
    Name(Name),
    /// An integer constant and its place.
    Number(Literal, Span),
    /// `(`, an expression, `)`.
    Parenthesis(Span, Box<Expr>, Span),
    /// The left operand, the operator with its place, the right operand.
    Binary(Box<Expr>, BinaryOperator, Span, Box<Expr>),
    /// The operator with its place, the operand.
    Prefix(PrefixOperator, Span, Box<Expr>),
    /// `(`, the words of a type, `)`, the operand.
    Cast(Span, Specifiers, Span, Box<Expr>),
    /// The array or pointer, `[`, the index, `]`.
    Index(Box<Expr>, Span, Box<Expr>, Span),
    /// The left side, the operator with its place, the member.
    Member(Box<Expr>, MemberOperator, Span, Name),
}

/// `target = value`.
#[derive(Drop)]
pub struct Assignment {
    pub target: Expr,
    pub equals: Span,
    pub value: Expr,
}

/// `keyword (condition)`, as behind `if`, `while`, and the body of a `do`.
#[derive(Drop)]
pub struct Test {
    pub keyword: Span,
    pub left: Span,
    pub condition: Expr,
    pub right: Span,
}

/// An argument and the `,` behind it.
#[derive(Drop)]
pub struct EarlierArgument {
    pub value: Expr,
    pub comma: Span,
}

/// The arguments of a call.
#[derive(Drop)]
pub enum Arguments {
    /// There are none.
    Nothing,
    /// All but the last one, and the last one.
    Listed(Vec<EarlierArgument>, Expr),
}

/// `name =`, before a call whose result is stored.
#[derive(Clone, Copy)]
pub struct CallTarget {
    pub name: Name,
    pub equals: Span,
}

/// A call of a function.
#[derive(Drop)]
pub struct Call {
    pub target: Option<CallTarget>,
    pub function: Name,
    pub left: Span,
    pub arguments: Arguments,
    pub right: Span,
}

/// `for (first; condition; step)`.
#[derive(Drop)]
pub struct ForHead {
    pub keyword: Span,
    pub left: Span,
    pub first: Option<Assignment>,
    pub first_semicolon: Span,
    pub condition: Option<Expr>,
    pub second_semicolon: Span,
    pub step: Option<Assignment>,
    pub right: Span,
}

/// A statement (ISO/IEC 9899:1999, 6.8). The last place of a statement that ends with `;` is that of the `;`.
#[derive(Drop)]
#[cycle(statement)]
pub enum Stmt {
    /// `;`
    Empty(Span),
    /// `{`, statements, `}`
    Block(Span, Vec<Stmt>, Span),
    /// `target = value;`
    Assign(Assignment, Span),
    /// `target = P1;` with the places of `=`, `P1` and `;`
    ReadPort(Expr, Span, Span, Span),
    /// `P1 = value;` with the places of `P1` and `=` before the value, and of `;` behind it
    WritePort(Span, Span, Expr, Span),
    /// `name = f(..);` or `f(..);`
    Call(Call, Span),
    /// `if (condition)` and its arm, without an `else`
    If(Test, Box<Stmt>),
    /// `if (condition)`, the first arm, `else`, the second arm
    IfElse(Test, Box<Stmt>, Span, Box<Stmt>),
    /// `while (condition)` and its body
    While(Test, Box<Stmt>),
    /// `do`, the body, `while (condition)`, `;`
    Do(Span, Box<Stmt>, Test, Span),
    /// `for (..; ..; ..)` and its body
    For(ForHead, Box<Stmt>),
    /// `break;`
    Break(Span, Span),
    /// `continue;`
    Continue(Span, Span),
    /// `return;` or `return value;`
    Return(Span, Option<Expr>, Span),
}

/// The length of an array: `[`, a number with its place, `]`.
#[derive(Clone, Copy)]
pub struct Length {
    pub left: Span,
    pub number: Literal,
    pub span: Span,
    pub right: Span,
}

/// The words of a type, stars, and the name that is declared: a parameter, or the front of another declaration.
#[derive(Drop)]
pub struct Declared {
    pub specifiers: Specifiers,
    pub stars: Vec<Span>,
    pub name: Name,
}

/// The declaration of a variable or member, up to its lengths.
#[derive(Drop)]
pub struct Declaration {
    pub declared: Declared,
    pub lengths: Vec<Length>,
}

/// A member of a struct.
#[derive(Drop)]
pub struct Member {
    pub declaration: Declaration,
    pub semicolon: Span,
}

/// `struct tag { members };`
#[derive(Drop)]
pub struct StructDefinition {
    pub keyword: Span,
    pub tag: Name,
    pub left: Span,
    pub members: Vec<Member>,
    pub right: Span,
    pub semicolon: Span,
}

/// A number, perhaps with a `-` before it.
#[derive(Clone, Copy)]
pub struct SignedNumber {
    pub minus: Option<Span>,
    pub number: Literal,
    pub span: Span,
}

/// A number in a list and the `,` behind it.
#[derive(Clone, Copy)]
pub struct EarlierNumber {
    pub number: SignedNumber,
    pub comma: Span,
}

/// The first value of a global.
#[derive(Drop)]
pub enum Initialiser {
    /// There is none.
    Nothing,
    /// `=` and a number.
    Single(Span, SignedNumber),
    /// `=`, `{`, all numbers but the last one, the last one, `}`.
    Listed(Span, Span, Vec<EarlierNumber>, SignedNumber, Span),
}

/// The declaration of a global variable.
#[derive(Drop)]
pub struct Global {
    pub declaration: Declaration,
    pub initialiser: Initialiser,
    pub semicolon: Span,
}

/// A parameter and the `,` behind it.
#[derive(Drop)]
pub struct EarlierParameter {
    pub parameter: Declared,
    pub comma: Span,
}

/// The parameters of a function.
#[derive(Drop)]
pub enum Parameters {
    /// `void`: there are none.
    Void(Span),
    /// All but the last one, and the last one.
    Listed(Vec<EarlierParameter>, Declared),
}

/// A function's result, name and parameters.
#[derive(Drop)]
pub struct Header {
    pub declared: Declared,
    pub left: Span,
    pub parameters: Parameters,
    pub right: Span,
}

/// The declaration of a function without its body.
#[derive(Drop)]
pub struct Prototype {
    pub header: Header,
    pub semicolon: Span,
}

/// The first value of a local: `=` and an expression, or nothing.
#[derive(Drop)]
pub enum LocalInitialiser {
    /// There is none.
    Nothing,
    /// `=` and an expression.
    Value(Span, Expr),
}

/// The declaration of a local variable.
#[derive(Drop)]
pub struct Local {
    pub declaration: Declaration,
    pub initialiser: LocalInitialiser,
    pub semicolon: Span,
}

/// The definition of a function.
#[derive(Drop)]
pub struct Function {
    pub header: Header,
    pub left: Span,
    pub locals: Vec<Local>,
    pub body: Vec<Stmt>,
    pub right: Span,
}

/// What a program is a list of.
#[derive(Drop)]
pub enum Item {
    /// A struct.
    Struct(StructDefinition),
    /// A global variable.
    Global(Global),
    /// A prototype.
    Prototype(Prototype),
    /// A function.
    Function(Function),
}

/// The syntax tree of a source.
#[derive(Drop)]
pub struct Program {
    /// The source's identifiers, by their numbers.
    pub names: Names,
    /// Its declarations and definitions, in the order of the text.
    pub items: Vec<Item>,
    /// The whole text.
    pub span: Span,
}
