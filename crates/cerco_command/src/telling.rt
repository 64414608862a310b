//! The command `meaning`.
ghost use Rattle.std.specs.Prelude.{◌≤◌, length, IfOk, IfErr, IsTrue, string_bytes};
ghost use Rattle.cerco_base.specs.Outside.IoStates.{SameFiles};
ghost use Rattle.cerco_command.specs.Answers.{Answers, KeepsFiles};
ghost use Rattle.cerco_command.specs.Inputs.{CannotRead, longest};
ghost use Rattle.cerco_command.specs.Telling.{names_of, MeaningMeans, MeaningMeansFor};
ghost use Rattle.cerco_command.specs.Code.Tellings.{texts_of, AreReadOf};
ghost use Rattle.cerco_command.specs.Words.{meaning_of_words};

use crate::building::SOURCE_LIMIT;
use crate::inputs::{READ_LIMIT, check_length, read_input};
use crate::refusal::refused;
use crate::reply::{Reply, answer};
use crate::status::Status;
use crate::words::MeaningWords;
use cerco_base::{Fault, Files, Sink};
use cerco_pipeline::tell_meaning;
use std::alloc::Global;

/// The texts of the files of `meaning`.
#[derive(Drop)]
pub struct Inputs {
    source: Vec<u8>,
    script: Vec<u8>,
}

fn read_inputs<F: Files>(
    alloc: Global,
    words: &MeaningWords,
    files: &mut F,
) -> Result<Inputs, Reply>
    ensures read { IsTrue (F.state files.old).known → IfOk result (λ inputs. AreReadOf (meaning_of_words words.now) (F.state files.old) (texts_of inputs)) }
    ensures cannot { IfErr result (λ reply. CannotRead (names_of (meaning_of_words words.now)) (F.state files.old) (F.state files.new) reply.status (string_bytes reply.line)) }
    ensures same { IsTrue (F.state files.old).known → SameFiles (F.state files.old) (F.state files.new) }
    ensures keeps { KeepsFiles (F.state files.old) (F.state files.new) }
{
    let source = read_input(alloc, &words.source, SOURCE_LIMIT, files)?;
    let script = read_input(alloc, &words.script, READ_LIMIT, files)?;
    Ok(Inputs { source, script })
}

// Prints what a source that was read means, or why it isn't compiled.
fn tell_source<O: Sink>(alloc: Global, inputs: &Inputs, words: &MeaningWords, out: &mut O) -> Status
    requires { length (texts_of inputs.now).script ≤ longest }
    ensures { Answers (MeaningMeansFor (meaning_of_words words.now) (texts_of inputs.now)) (O.state out.old) (O.state out.new) result }
{
    match tell_meaning(alloc, &inputs.source, &inputs.script, words.limit, out) {
        Ok(Ok(())) => Status::Told,
        Ok(Err(fault)) => Status::of_fault(fault),
        Err(Fault::Refused(reason)) => answer(out, &refused(alloc, reason)),
        Err(Fault::OutOfMemory) => Status::NoMemory,
    }
}

// Prints what the source of some texts means.
fn tell_inputs<O: Sink>(alloc: Global, inputs: &Inputs, words: &MeaningWords, out: &mut O) -> Status
    ensures { Answers (MeaningMeansFor (meaning_of_words words.now) (texts_of inputs.now)) (O.state out.old) (O.state out.new) result }
{
    if let Err(reply) = check_length(alloc, &words.script, &inputs.script) {
        return answer(out, &reply);
    }
    tell_source(alloc, inputs, words, out)
}

/// Compiles a source of at most 65,535 bytes and prints the events of its meaning on a script, each label with the cost of all before it,
/// to the end, to a fault, or to where more labels are due than the words say.
pub fn meaning<F: Files, O: Sink>(
    alloc: Global,
    words: &MeaningWords,
    files: &mut F,
    out: &mut O,
) -> Status
    ensures answers { Answers (MeaningMeans (meaning_of_words words.now) (F.state files.old) (F.state files.new)) (O.state out.old) (O.state out.new) result }
    ensures keeps { KeepsFiles (F.state files.old) (F.state files.new) }
{
    match read_inputs(alloc, words, files) {
        Ok(inputs) => tell_inputs(alloc, &inputs, words, out),
        Err(reply) => answer(out, &reply),
    }
}
