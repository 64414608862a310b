//! Programs whose expressions have types and whose names have meanings, with something at each place of a cost label: nothing
//! in a program that was checked, a label in one that was labelled. They keep all tokens of the source.

ghost use Rattle.std.specs.Prelude.{◌≡◌, slice_index_or};

use crate::points::Points;
use c_types::{StructType, Ty};
use cerco_base::{CallOrder, Label};
use clight_source::names::Names;
use clight_source::span::Span;
use clight_source::symbol::Literal;
use clight_source::tree::{
    BinaryOperator, CallTarget, Declaration, Global, Header, MemberOperator, Name, PrefixOperator,
    Prototype, Specifiers, StructDefinition,
};

/// An expression with its type, the first field of each form.
#[derive(Drop)]
#[cycle(typed_expression)]
pub enum Expr {
    /// The variable with this number, and its name.
    Variable(Ty, u32, Name),
    /// An integer constant and its place.
    Number(Ty, Literal, Span),
    /// `(`, an expression, `)`
    Parenthesis(Ty, Span, Box<Expr>, Span),
    /// The left operand, the operator with its place, the right operand.
    Binary(Ty, Box<Expr>, BinaryOperator, Span, Box<Expr>),
    /// The operator with its place, the operand.
    Prefix(Ty, PrefixOperator, Span, Box<Expr>),
    /// `(`, the words of a type, `)`, the operand.
    Cast(Ty, Span, Specifiers, Span, Box<Expr>),
    /// The array or pointer, `[`, the index, `]`
    Index(Ty, Box<Expr>, Span, Box<Expr>, Span),
    /// The left side, the operator with its place, the member's name, and its offset in the struct, in bytes.
    Member(Ty, Box<Expr>, MemberOperator, Span, Name, u32),
}

/// A condition, with an L at each place of a cost label.
#[derive(Drop)]
#[cycle(condition)]
pub enum Cond<L: Drop> {
    /// A scalar, which is to differ from 0 or null.
    Value(Expr),
    /// `(`, a condition that is no value, `)`
    Parenthesis(Span, Box<Cond<L>>, Span),
    /// `!` and a condition
    Not(Span, Box<Cond<L>>),
    /// The left operand, `&&`, the labels behind the left operand where it is true and where it is false, the right operand.
    Both(Box<Cond<L>>, Span, L, L, Box<Cond<L>>),
    /// The left operand, `||`, the labels behind the left operand where it is true and where it is false, the right operand.
    Either(Box<Cond<L>>, Span, L, L, Box<Cond<L>>),
}

/// `target = value`.
#[derive(Drop)]
pub struct Assignment {
    pub target: Expr,
    pub equals: Span,
    pub value: Expr,
}

/// `keyword (condition)`, as behind `if`, `while`, and the body of a `do`.
#[derive(Drop)]
pub struct Test<L: Drop> {
    pub keyword: Span,
    pub left: Span,
    pub condition: Cond<L>,
    pub right: Span,
}

/// An argument and the `,` behind it.
#[derive(Drop)]
pub struct EarlierArgument {
    pub value: Expr,
    pub comma: Span,
}

/// The arguments of a call.
#[derive(Drop)]
pub enum Arguments {
    /// There are none.
    Nothing,
    /// All but the last one, and the last one.
    Listed(Vec<EarlierArgument>, Expr),
}

/// The variable that takes a call's result.
#[derive(Clone, Copy)]
pub struct ResultTarget {
    /// The variable's number.
    pub variable: u32,
    /// Its name and the `=`.
    pub target: CallTarget,
}

/// A call of a function.
#[derive(Drop)]
pub struct Call {
    pub target: Option<ResultTarget>,
    /// The function's number.
    pub function: u32,
    pub name: Name,
    pub left: Span,
    pub arguments: Arguments,
    pub right: Span,
}

/// `for (first; condition; step)`.
#[derive(Drop)]
pub struct ForHead<L: Drop> {
    pub keyword: Span,
    pub left: Span,
    pub first: Option<Assignment>,
    pub first_semicolon: Span,
    pub condition: Option<Cond<L>>,
    pub second_semicolon: Span,
    pub step: Option<Assignment>,
    pub right: Span,
}

/// A statement (ISO/IEC 9899:1999, 6.8). The last place of a statement that ends with `;` is that of the `;`, but where a
/// label follows it.
#[derive(Drop)]
#[cycle(typed_statement)]
pub enum Stmt<L: Drop> {
    /// `;`
    Empty(Span),
    /// `{`, statements, `}`
    Block(Span, Vec<Stmt<L>>, Span),
    /// `target = value;`
    Assign(Assignment, Span),
    /// `target = P1;` with the places of `=`, `P1` and `;`
    ReadPort(Expr, Span, Span, Span),
    /// `P1 = value;` with the places of `P1` and `=` before the value, and of `;` behind it
    WritePort(Span, Span, Expr, Span),
    /// A call, `;`, and the label behind it
    Call(Call, Span, L),
    /// `if (condition)`, the arm's label, the arm, and the label of the missing arm
    If(Test<L>, L, Box<Stmt<L>>, L),
    /// `if (condition)`, the first arm with its label before it, `else`, the second arm with its label before it
    IfElse(Test<L>, L, Box<Stmt<L>>, Span, L, Box<Stmt<L>>),
    /// `while (condition)`, the body with its label before it, and the label behind the loop
    While(Test<L>, L, Box<Stmt<L>>, L),
    /// `do`, the body, `while (condition)`, the label of the way back, `;`, and the label behind the loop
    Do(Span, Box<Stmt<L>>, Test<L>, L, Span, L),
    /// `for (..; ..; ..)`, the body with its label before it, and the label behind the loop
    For(ForHead<L>, L, Box<Stmt<L>>, L),
    /// `break;`
    Break(Span, Span),
    /// `continue;`
    Continue(Span, Span),
    /// `return;` or `return value;`
    Return(Span, Option<Expr>, Span),
}

/// The first value of a local: `=` and an expression, or nothing.
#[derive(Drop)]
pub enum LocalInitialiser {
    /// There is none.
    Nothing,
    /// `=` and an expression.
    Value(Span, Expr),
}

/// The declaration of a local variable.
#[derive(Drop)]
pub struct Local {
    pub declaration: Declaration,
    pub initialiser: LocalInitialiser,
    pub semicolon: Span,
}

/// The definition of a function.
#[derive(Drop)]
pub struct Function<L: Drop> {
    pub header: Header,
    /// The type of its result.
    pub result: Ty,
    /// The number of the first of its variables. They are its parameters and then its locals, in order.
    pub first_variable: u32,
    /// How many parameters it has.
    pub parameters: u32,
    pub left: Span,
    /// The label at its start.
    pub label: L,
    pub locals: Vec<Local>,
    pub body: Vec<Stmt<L>>,
    pub right: Span,
}

/// What a program is a list of.
#[derive(Drop)]
pub enum Item {
    /// A struct.
    Struct(StructDefinition),
    /// A global variable and its number.
    Global(Global, u32),
    /// A prototype.
    Prototype(Prototype),
    /// The function with this number.
    Function(u32),
}

/// Where a variable lives.
#[derive(Clone, Copy)]
pub enum Home {
    /// The program's block with this number. The globals are numbered from 0 in the order of their declarations.
    Global(u32),
    /// The block with this number among those of its function's call: arrays, structs, and parameters and locals whose address
    /// is taken, numbered from 0 in the order of their declarations.
    Block(u32),
    /// No block: it is the scalar with this number among those of its function's call. All parameters and locals of a scalar
    /// type are numbered from 0 in the order of their declarations, also those that live in a block.
    Scalar(u32),
}

/// A variable.
#[derive(Drop)]
pub struct Variable {
    pub name: Name,
    pub ty: Ty,
    pub home: Home,
    /// The first address of its block in external RAM, 0 where it has none.
    pub address: u16,
}

/// A program whose expressions have types and whose names have meanings.
#[derive(Drop)]
pub struct TypedProgram<L: Drop> {
    /// The source's identifiers, by their numbers.
    pub names: Names,
    /// Its declarations and definitions, in the order of the text.
    pub items: Vec<Item>,
    /// The whole text.
    pub span: Span,
    pub structs: Vec<StructType>,
    /// The variables of the whole program, by their numbers: in the order of their declarations.
    pub variables: Vec<Variable>,
    /// The functions, by their numbers: in the order of their definitions.
    pub functions: Vec<Function<L>>,
    /// The number of `main`.
    pub main: u32,
    /// The address at which the frame of each function begins in external RAM.
    pub frames: Vec<u16>,
    /// The bytes of the globals and of the largest frames of a call path.
    pub data_bytes: u16,
    /// The functions in the order of their calls.
    pub calls: CallOrder,
}

impl<L: Drop> TypedProgram<L> {
    ghost use Rattle.clight_syntax.specs.Code.TypedViews.{program_of};
    ghost use Rattle.clight_syntax.specs.TypedTrees.{address_at};

    /// The functions by number, each with those that call it, and each caller before those that it calls.
    pub fn call_order(&self) -> &CallOrder
        ensures { result.now ≡ (program_of self.now).calls }
    {
        &self.calls
    }

    /// The first address in external RAM of a variable that is a global, an array, a struct, or a parameter or local whose address
    /// is taken. 0 for any other number.
    pub fn address(&self, variable: u32) -> u16
        ensures { result ≡ address_at (program_of self.now) variable }
    {
        match self.variables.get(variable as usize) {
            Some(variable) => variable.address,
            None => 0,
        }
    }

    /// The address in external RAM at which the frame of a function begins, 0 where there is no such function.
    pub fn frame(&self, function: u32) -> u16
        ensures { result ≡ slice_index_or (program_of self.now).frames function 0 }
    {
        match self.frames.get(function as usize) {
            Some(&frame) => frame,
            None => 0,
        }
    }

    /// The bytes of the globals and of the largest frames of a call path: 65,534 at most in a program that was checked.
    pub fn data(&self) -> u16
        ensures { result ≡ (program_of self.now).data_bytes }
    {
        self.data_bytes
    }
}

/// A program that was checked.
pub type Typed = TypedProgram<()>;

/// A program with its cost labels, and the places in the source at which its annotations stand.
#[derive(Drop)]
pub struct Labelled {
    pub program: TypedProgram<Label>,
    pub points: Points,
}

impl Labelled {
    ghost use Rattle.clight_syntax.specs.Code.TypedViews.{labelled_of};
    ghost use Rattle.clight_syntax.specs.TypedTrees.{address_at};

    /// As `TypedProgram::call_order`.
    pub fn call_order(&self) -> &CallOrder
        ensures { result.now ≡ (labelled_of self.now).calls }
    {
        self.program.call_order()
    }

    /// As `TypedProgram::address`.
    pub fn address(&self, variable: u32) -> u16
        ensures { result ≡ address_at (labelled_of self.now) variable }
    {
        self.program.address(variable)
    }

    /// As `TypedProgram::frame`.
    pub fn frame(&self, function: u32) -> u16
        ensures { result ≡ slice_index_or (labelled_of self.now).frames function 0 }
    {
        self.program.frame(function)
    }

    /// As `TypedProgram::data`.
    pub fn data(&self) -> u16
        ensures { result ≡ (labelled_of self.now).data_bytes }
    {
        self.program.data()
    }

    /// The places in the source at which the annotations stand.
    pub fn points(&self) -> &Points
        ensures { result.now ≡ self.now.points }
    {
        &self.points
    }
}
