//! Why a source is refused.
ghost use Rattle.std.specs.Prelude.{◌≡◌};
ghost use Rattle.cerco_base.specs.declared.reasons.Fault.TheVariants as Fault;

use crate::no_memory::NoMemory;
use std::alloc::{AllocError, AllocFailed};
use thiserror::Error;

/// What is wrong with a name (ISO/IEC 9899:1999, 6.2.1 and 7.1.3, in the compiler's profile).
#[derive(Clone, Copy, Debug, PartialEq, Eq)]
pub enum NameKind {
    /// It begins with `__`.
    Reserved,
    /// It has more than 63 bytes.
    Long,
    /// It was declared before in its scope.
    Twice,
    /// It isn't declared.
    Unknown,
    /// It has a prototype and no definition.
    Undefined,
    /// `main` is missing or isn't `void main(void)`.
    Main,
}

/// What is wrong with the type of a part of a program (ISO/IEC 9899:1999, 6.3, 6.5 and 6.7, in the
/// compiler's profile).
#[derive(Clone, Copy, Debug, PartialEq, Eq)]
pub enum TypeKind {
    /// A `long` type stands, or a number that would be `long`.
    Long,
    /// A size isn't 1 to 65,534 bytes.
    Size,
    /// `void` stands elsewhere than as a result or as an empty parameter list.
    Void,
    /// The left side is no struct, or for `->` no pointer to one, or the struct has no such member.
    Member,
    /// An operator doesn't take operands of these types.
    Operand,
    /// `/` or `%` doesn't take operands of these types.
    Division,
    /// `<<` or `>>` doesn't take these operands.
    Shift,
    /// `!`, `&&`, `||`, a struct or a function's name stands where a value is needed, or a parameter
    /// or a result is a struct.
    Value,
    /// A condition is needed and the expression is none.
    Condition,
    /// The value can't be assigned to this place, or the left side is no such place.
    Assign,
    /// The initialiser isn't allowed here.
    Init,
    /// The name is no function, the arguments don't match, the result of a `void` function is used,
    /// or the target can't take it.
    Call,
    /// There are more than 12 bytes of parameters.
    Params,
    /// A value stands in a `void` function, none in another, or one that can't be assigned to the
    /// result.
    Return,
    /// `break` or `continue` stands outside a loop.
    Jump,
    /// A port is read into a wrong target, or a value that is no integer is written to one.
    Port,
    /// A prototype differs from the definition.
    Prototype,
}

/// The first thing that is wrong with a source. Each `at` is a byte offset from the text's start, at
/// most 65,535.
#[derive(Clone, Copy, Debug, PartialEq, Eq, Error)]
pub enum Reason {
    /// The text has more than 65,535 bytes.
    #[error("the text has more than 65,535 bytes")]
    TooLong,
    /// A byte that no source has.
    #[error("no source has the byte at {at}")]
    Byte { at: u32 },
    /// The opening of an annotation, `/*@`.
    #[error("an annotation opens at {at}")]
    Marker { at: u32 },
    /// Neither a gap nor a token begins there, or one that is malformed.
    #[error("no token stands at {at}")]
    Token { at: u32 },
    /// The first token with which no program can go on, or the text's length.
    #[error("no program has this token at {at}")]
    Syntax { at: u32 },
    /// The least start of a part that nests deeper than 64.
    #[error("a part that nests too deep begins at {at}")]
    Nesting { at: u32 },
    /// A name that isn't allowed there.
    #[error("the name at {at} is wrong: {kind:?}")]
    Name { at: u32, kind: NameKind },
    /// A part without a type.
    #[error("the part at {at} has no type: {kind:?}")]
    Typing { at: u32, kind: TypeKind },
    /// The name of the first function that calls itself, directly or not.
    #[error("the function at {at} calls itself")]
    Recursion { at: u32 },
    /// A path of calls has more than 64 functions; the longest has `depth`.
    #[error("a path of calls has {depth} functions")]
    StackFull { depth: u32 },
    /// The variables need `total` bytes, which is more than 65,534.
    #[error("the variables need {total} bytes")]
    DataFull { total: u32 },
    /// The local values need `need` cells, which is more than 112.
    #[error("the local values need {need} cells")]
    CellsFull { need: u32 },
    /// The object has `len` bytes, which is more than 65,536.
    #[error("the object has {len} bytes")]
    CodeFull { len: u32 },
}

/// Why a source isn't compiled.
#[derive(Clone, Copy, Debug, PartialEq, Eq, Error)]
pub enum Fault {
    /// The source is refused.
    #[error("refused: {0}")]
    Refused(Reason),
    /// There was no memory for the call.
    #[error("out of memory")]
    OutOfMemory,
}

impl From<AllocError> for Fault {
    ghost from_gives = { λ _ fault. fault ≡ Fault.OutOfMemory };

    fn from(_: AllocError) -> Self {
        Fault::OutOfMemory
    }
}

impl<T: Drop> From<AllocFailed<T>> for Fault {
    ghost from_gives = { λ _ fault. fault ≡ Fault.OutOfMemory };

    fn from(_: AllocFailed<T>) -> Self {
        Fault::OutOfMemory
    }
}

impl From<NoMemory> for Fault {
    ghost from_gives = { λ _ fault. fault ≡ Fault.OutOfMemory };

    fn from(_: NoMemory) -> Self {
        Fault::OutOfMemory
    }
}
