//! What the program answers: its status, and a line for it.
ghost use Rattle.std.specs.Prelude.{◌≡◌, [], codes, decimal, string_bytes};
ghost use Rattle.cerco_command.specs.Answers.{Says};
ghost use Rattle.cerco_command.specs.Messages.{line_about, no_file, file_fault, bad_file, bad_hex, bad_map, usage, kind_word};
ghost use Rattle.cerco_command.specs.Code.Stages.{Replies};
ghost use Rattle.cerco_command.specs.declared.status.Status.TheVariants as Is;

use crate::status::Status;
use cerco_base::{Sink, put_all};
use object_hex::{HexFault, HexKind, MapFault};
use std::alloc::Global;

/// A status, and the text that is printed for it.
#[derive(Drop)]
pub struct Reply {
    /// How the program is to end.
    pub status: Status,
    /// A line with its end, or nothing.
    pub line: String,
}

/// An answer without a line.
pub fn silent(alloc: Global, status: Status) -> Reply
    ensures status { result.status ≡ status }
    ensures line { string_bytes result.line ≡ [] }
{
    Reply {
        status,
        line: String::new(alloc),
    }
}

// An answer with a word of the program's own and what it is about.
fn with_line(alloc: Global, status: Status, word: &str, about: &str) -> Reply
    ensures { Replies status (line_about word.now about.now) result.status (string_bytes result.line) }
{
    match format!(in alloc; "{word}{about}\n") {
        Ok(line) => Reply { status, line },
        Err(_) => silent(alloc, Status::NoMemory),
    }
}

/// The words are no command.
pub fn usage(alloc: Global) -> Reply
    ensures { Replies Is.Usage usage result.status (string_bytes result.line) }
{
    with_line(alloc, Status::Usage, "usage", "")
}

/// A file isn't there.
pub fn no_file(alloc: Global, name: &str) -> Reply
    ensures { Replies Is.NoFile (no_file name.now) result.status (string_bytes result.line) }
{
    with_line(alloc, Status::NoFile, "no file ", name)
}

/// A call at a file failed.
pub fn file_fault(alloc: Global, name: &str) -> Reply
    ensures { Replies Is.FileFault (file_fault name.now) result.status (string_bytes result.line) }
{
    with_line(alloc, Status::FileFault, "file fault ", name)
}

/// A file is too long.
pub fn bad_file(alloc: Global, name: &str) -> Reply
    ensures { Replies Is.BadInput (bad_file name.now) result.status (string_bytes result.line) }
{
    with_line(alloc, Status::BadInput, "bad file ", name)
}

// The word for what is wrong with a line of a hex text.
fn kind_word(kind: HexKind) -> &'static str
    ensures { result.now ≡ kind_word kind }
{
    match kind {
        HexKind::Form => "form",
        HexKind::Sum => "sum",
        HexKind::Type => "type",
        HexKind::Upper => "upper",
        HexKind::End => "end",
        HexKind::Range => "range",
        HexKind::Twice => "twice",
        HexKind::After => "after",
        HexKind::NoEnd => "noend",
    }
}

/// A hex text has a bad line.
pub fn bad_hex(alloc: Global, fault: HexFault) -> Reply
    ensures { Replies Is.BadInput (bad_hex fault) result.status (string_bytes result.line) }
{
    let number = fault.line;
    let kind = kind_word(fault.kind);
    match format!(in alloc; "bad hex {number} {kind}\n") {
        Ok(line) => Reply {
            status: Status::BadInput,
            line,
        },
        Err(_) => silent(alloc, Status::NoMemory),
    }
}

/// A text of label addresses has a bad line.
pub fn bad_map(alloc: Global, fault: MapFault) -> Reply
    ensures { Replies Is.BadInput (bad_map fault) result.status (string_bytes result.line) }
{
    let number = fault.line;
    match format!(in alloc; "bad map {number}\n") {
        Ok(line) => Reply {
            status: Status::BadInput,
            line,
        },
        Err(_) => silent(alloc, Status::NoMemory),
    }
}

/// Puts a text that is meant with a status. The result is this status, or says why the text couldn't be put.
pub fn say<O: Sink>(out: &mut O, status: Status, text: &[u8]) -> Status
    ensures { Says (O.state out.old) (O.state out.new) status text.now result }
{
    match put_all(out, text) {
        Ok(()) => status,
        Err(fault) => Status::of_fault(fault),
    }
}

/// Puts the line of a reply.
pub fn answer<O: Sink>(out: &mut O, reply: &Reply) -> Status
    ensures { Says (O.state out.old) (O.state out.new) reply.now.status (string_bytes reply.now.line) result }
{
    say(out, reply.status, reply.line.as_bytes())
}
