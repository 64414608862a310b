//! The command `run`.
ghost use Rattle.std.specs.Prelude.{◌≡◌, ℕ, ◌≤◌, ◌<◌, ◌^◌, length, OnOk, IfOk, IfErr, IsTrue, string_bytes};
ghost use Rattle.cerco_base.specs.Outside.IoStates.{SameFiles};
ghost use Rattle.cerco_base.specs.Outside.InMemory.{sound_sink_state};
ghost use Rattle.sim51.specs.State.{reset};
ghost use Rattle.sim51.specs.Runs.{Setup, setup_of};
ghost use Rattle.cerco_command.specs.Answers.{Answers, KeepsFiles};
ghost use Rattle.cerco_command.specs.Inputs.{CannotRead, longest, NoneTooLong, HasNoObject, AreObject};
ghost use Rattle.cerco_command.specs.Running.{names_of, texts_of, with_names, AreTextsOf, RunsTo, RunMeans, RunMeansFor};
ghost use Rattle.cerco_command.specs.Once.{StopsOnce};
ghost use Rattle.cerco_command.specs.Code.Stages.{StepPrinted};
ghost use Rattle.cerco_command.specs.Words.{run_of_words};

use crate::inputs::{READ_LIMIT, check_length, read_input, read_object};
use crate::printing::{put_events, put_reserved};
use crate::reply::{Reply, answer, say, silent};
use crate::status::Status;
use crate::words::RunWords;
use cerco_base::{Files, IoFault, Sink, SoundSink};
use printed_lines::{put_count, put_pending};
use sim51::{Machine, Step};
use std::alloc::Global;

/// The texts of the files of `run`.
#[derive(Drop)]
pub struct Inputs {
    hex: Vec<u8>,
    map: Vec<u8>,
    script: Vec<u8>,
}

fn read_inputs<F: Files>(alloc: Global, words: &RunWords, files: &mut F) -> Result<Inputs, Reply>
    ensures read { IsTrue (F.state files.old).known → IfOk result (λ inputs. AreTextsOf (run_of_words words.now) (F.state files.old) (texts_of inputs)) }
    ensures cannot { IfErr result (λ reply. CannotRead (names_of (run_of_words words.now)) (F.state files.old) (F.state files.new) reply.status (string_bytes reply.line)) }
    ensures same { IsTrue (F.state files.old).known → SameFiles (F.state files.old) (F.state files.new) }
    ensures keeps { KeepsFiles (F.state files.old) (F.state files.new) }
{
    let hex = read_input(alloc, &words.hex, READ_LIMIT, files)?;
    let map = read_input(alloc, &words.map, READ_LIMIT, files)?;
    let script = read_input(alloc, &words.script, READ_LIMIT, files)?;
    Ok(Inputs { hex, map, script })
}

fn check_lengths(alloc: Global, words: &RunWords, inputs: &Inputs) -> Result<(), Reply>
    ensures short { OnOk result (NoneTooLong (with_names (run_of_words words.now) (texts_of inputs.now))) }
    ensures long { IfErr result (λ reply. RunMeansFor (run_of_words words.now) (texts_of inputs.now) reply.status (string_bytes reply.line)) }
{
    check_length(alloc, &words.hex, &inputs.hex)?;
    check_length(alloc, &words.map, &inputs.map)?;
    check_length(alloc, &words.script, &inputs.script)
}

// The machine with the object of the texts, at reset.
fn load<'a>(alloc: Global, inputs: &'a Inputs) -> Result<Machine<'a>, Reply>
    requires hex_short { length inputs.now.hex.items ≤ longest }
    requires map_short { length inputs.now.map.items ≤ longest }
    ensures loaded { IfOk result (λ machine. AreObject (texts_of inputs.now).hex (texts_of inputs.now).map machine.code machine.labels
        × (machine.state ≡ reset (texts_of inputs.now).script)) }
    ensures cannot { IfErr result (λ reply. HasNoObject (texts_of inputs.now).hex (texts_of inputs.now).map reply.status (string_bytes reply.line)) }
{
    let object = read_object(alloc, &inputs.hex, &inputs.map)?;
    let code = object.code.as_slice();
    let labels = object.labels.as_slice();
    match Machine::load(alloc, code, labels, &inputs.script) {
        Ok(machine) => Ok(machine),
        Err(_) => Err(silent(alloc, Status::NoMemory)),
    }
}

// Makes a step, unless the machine stops, and adds what is printed for it. The result is the status where the machine stops. (At
// the limit a step is made whose events aren't printed.)
fn print_step(
    machine: &mut Machine<'_>,
    limit: u64,
    pending: &mut SoundSink,
) -> Result<Option<Status>, IoFault>
    requires { machine.old.state.cycles < 2 ^ 62 }
    ensures code { machine.new.code ≡ machine.old.code }
    ensures labels { machine.new.labels ≡ machine.old.labels }
    ensures printed { IfOk result (λ stop. StepPrinted limit machine.old machine.new (sound_sink_state pending.old).bytes (sound_sink_state pending.new).bytes stop) }
{
    let cycles = machine.cycles();
    let address = machine.pc();
    match machine.step() {
        Step::Halted => {
            put_count("end ", cycles, pending)?;
            Ok(Some(Status::Done))
        }
        _ if cycles >= limit => {
            put_count("stop ", cycles, pending)?;
            Ok(Some(Status::Done))
        }
        Step::Reserved => {
            put_reserved(address, pending)?;
            Ok(Some(Status::Reserved))
        }
        Step::Went(events) => {
            put_events(events, cycles, pending)?;
            Ok(None)
        }
    }
}

// Prints the run of a machine from reset.
fn print_run<O: Sink>(alloc: Global, machine: &mut Machine<'_>, limit: u32, out: &mut O) -> Status
    requires limit { limit ≤ 1000000000 }
    requires reset { machine.old.state ≡ reset machine.old.state.core.script }
    ensures { Answers (RunsTo (setup_of machine.old) limit) (O.state out.old) (O.state out.new) result }
{
    let mut pending = SoundSink::new(alloc);
    loop {
        machine.skip(limit as u64);
        match print_step(machine, limit as u64, &mut pending) {
            Ok(None) => {}
            Ok(Some(status)) => return say(out, status, pending.bytes()),
            Err(_) => return Status::NoMemory,
        }
        pending = match put_pending(alloc, pending, out) {
            Ok(left) => left,
            Err(fault) => return Status::of_fault(fault),
        };
    }
}

// Runs the object of some texts.
fn run_inputs<O: Sink>(alloc: Global, words: &RunWords, inputs: &Inputs, out: &mut O) -> Status
    requires { words.now.limit ≤ 1000000000 }
    ensures { Answers (RunMeansFor (run_of_words words.now) (texts_of inputs.now)) (O.state out.old) (O.state out.new) result }
{
    if let Err(reply) = check_lengths(alloc, words, inputs) {
        return answer(out, &reply);
    }
    match load(alloc, inputs) {
        Ok(mut machine) => print_run(alloc, &mut machine, words.limit, out),
        Err(reply) => answer(out, &reply),
    }
}

/// Runs an object on a script and prints its events, each with the machine cycles before its instruction, to the halt, to the limit of
/// cycles or to the reserved opcode.
pub fn run<F: Files, O: Sink>(alloc: Global, words: &RunWords, files: &mut F, out: &mut O) -> Status
    requires { words.now.limit ≤ 1000000000 }
    ensures answers { Answers (RunMeans (run_of_words words.now) (F.state files.old) (F.state files.new)) (O.state out.old) (O.state out.new) result }
    ensures keeps { KeepsFiles (F.state files.old) (F.state files.new) }
    // every run has one stop, which is at the reserved opcode exactly where the machine reaches that below the limit
    ensures one_stop { (m : Setup) (limit : ℕ) → StopsOnce m limit }
{
    match read_inputs(alloc, words, files) {
        Ok(inputs) => run_inputs(alloc, words, &inputs, out),
        Err(reply) => answer(out, &reply),
    }
}
