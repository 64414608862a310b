//! The command `erase`.
ghost use Rattle.annotate.specs.Erasure.{erased};
ghost use Rattle.cerco_command.specs.Answers.{Says, Answers, KeepsFiles};
ghost use Rattle.cerco_command.specs.Erasing.{EraseMeans, EraseMeansFor};
ghost use Rattle.cerco_command.specs.declared.status.Status.TheVariants as Is;

use crate::inputs::{READ_LIMIT, check_length, read_input};
use crate::reply::answer;
use crate::status::Status;
use annotate::erase as put_erased;
use cerco_base::{Files, Sink};
use std::alloc::Global;

// Puts a text without its annotations. The result is the status of the command.
fn say_erased<O: Sink>(text: &[u8], out: &mut O) -> Status
    ensures { Says (O.state out.old) (O.state out.new) Is.Done (erased text.now) result }
{
    match put_erased(text, out) {
        Ok(()) => Status::Done,
        Err(fault) => Status::of_fault(fault),
    }
}

// Erases the annotations of a text that was read.
fn erase_text<O: Sink>(alloc: Global, name: &str, text: &[u8], out: &mut O) -> Status
    ensures { Answers (EraseMeansFor name.now text.now) (O.state out.old) (O.state out.new) result }
{
    if let Err(reply) = check_length(alloc, name, text) {
        return answer(out, &reply);
    }
    say_erased(text, out)
}

/// Prints an annotated text without its annotations.
pub fn erase<F: Files, O: Sink>(alloc: Global, name: &str, files: &mut F, out: &mut O) -> Status
    ensures answers { Answers (EraseMeans name.now (F.state files.old) (F.state files.new)) (O.state out.old) (O.state out.new) result }
    ensures keeps { KeepsFiles (F.state files.old) (F.state files.new) }
{
    match read_input(alloc, name, READ_LIMIT, files) {
        Ok(text) => erase_text(alloc, name, &text, out),
        Err(reply) => answer(out, &reply),
    }
}
