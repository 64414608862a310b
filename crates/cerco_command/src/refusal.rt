//! The line that names the reason for which a source is refused.
ghost use Rattle.std.specs.Prelude.{◌≡◌, codes, decimal, string_bytes};
ghost use Rattle.cerco_command.specs.Messages.{line_about};
ghost use Rattle.cerco_command.specs.Refusals as s;
ghost use Rattle.cerco_command.specs.Code.Stages.{Replies};
ghost use Rattle.cerco_command.specs.declared.status.Status.TheVariants as Is;

use crate::reply::{Reply, silent};
use crate::status::Status;
use cerco_base::{NameKind, Reason, TypeKind};
use std::alloc::Global;

fn name_word(kind: NameKind) -> &'static str
    ensures { result.now ≡ s.name_word kind }
{
    match kind {
        NameKind::Reserved => "reserved",
        NameKind::Long => "long",
        NameKind::Twice => "twice",
        NameKind::Unknown => "unknown",
        NameKind::Undefined => "undefined",
        NameKind::Main => "main",
    }
}

fn type_word(kind: TypeKind) -> &'static str
    ensures { result.now ≡ s.type_word kind }
{
    match kind {
        TypeKind::Long => "long",
        TypeKind::Size => "size",
        TypeKind::Void => "void",
        TypeKind::Member => "member",
        TypeKind::Operand => "operand",
        TypeKind::Division => "division",
        TypeKind::Shift => "shift",
        TypeKind::Value => "value",
        TypeKind::Condition => "condition",
        TypeKind::Assign => "assign",
        TypeKind::Init => "init",
        TypeKind::Call => "call",
        TypeKind::Params => "params",
        TypeKind::Return => "return",
        TypeKind::Jump => "jump",
        TypeKind::Port => "port",
        TypeKind::Prototype => "prototype",
    }
}

// A line with a number.
fn with_number(alloc: Global, status: Status, word: &str, number: u32) -> Reply
    ensures { Replies status (line_about word.now (decimal number)) result.status (string_bytes result.line) }
{
    match format!(in alloc; "{word}{number}\n") {
        Ok(line) => Reply { status, line },
        Err(_) => silent(alloc, Status::NoMemory),
    }
}

// A reason that the bytes of the source determine, with its place or its count.
fn unsound(alloc: Global, word: &str, number: u32) -> Reply
    ensures { Replies Is.Refused (line_about word.now (decimal number)) result.status (string_bytes result.line) }
{
    with_number(alloc, Status::Refused, word, number)
}

// The program is too big for the machine.
fn too_big(alloc: Global, word: &str, number: u32) -> Reply
    ensures { Replies Is.NoRoom (line_about word.now (decimal number)) result.status (string_bytes result.line) }
{
    with_number(alloc, Status::NoRoom, word, number)
}

// A reason with its kind and its place.
fn with_kind(alloc: Global, word: &str, kind: &str, at: u32) -> Reply
    ensures { Replies Is.Refused (s.kind_at word.now kind.now at) result.status (string_bytes result.line) }
{
    match format!(in alloc; "{word}{kind} at {at}\n") {
        Ok(line) => Reply {
            status: Status::Refused,
            line,
        },
        Err(_) => silent(alloc, Status::NoMemory),
    }
}

// The text is too long.
fn too_long(alloc: Global) -> Reply
    ensures { Replies Is.Refused (codes "refused 1 long\n") result.status (string_bytes result.line) }
{
    match format!(in alloc; "refused 1 long\n") {
        Ok(line) => Reply {
            status: Status::Refused,
            line,
        },
        Err(_) => silent(alloc, Status::NoMemory),
    }
}

/// The source is refused for this reason. The line has the reason's number, its word, and its place as a byte offset or the
/// count that is too large.
pub fn refused(alloc: Global, reason: Reason) -> Reply
    ensures { Replies (s.status_of_refusal reason) (s.refused reason) result.status (string_bytes result.line) }
{
    match reason {
        Reason::TooLong => too_long(alloc),
        Reason::Byte { at } => unsound(alloc, "refused 2 byte at ", at),
        Reason::Marker { at } => unsound(alloc, "refused 3 marker at ", at),
        Reason::Token { at } => unsound(alloc, "refused 4 token at ", at),
        Reason::Syntax { at } => unsound(alloc, "refused 5 syntax at ", at),
        Reason::Nesting { at } => unsound(alloc, "refused 6 nesting at ", at),
        Reason::Name { at, kind } => with_kind(alloc, "refused 7 name ", name_word(kind), at),
        Reason::Typing { at, kind } => with_kind(alloc, "refused 8 type ", type_word(kind), at),
        Reason::Recursion { at } => unsound(alloc, "refused 9 recursion at ", at),
        Reason::StackFull { depth } => unsound(alloc, "refused 10 stack ", depth),
        Reason::DataFull { total } => unsound(alloc, "refused 11 data ", total),
        Reason::CellsFull { need } => too_big(alloc, "refused 12 cells ", need),
        Reason::CodeFull { len } => too_big(alloc, "refused 13 code ", len),
    }
}
