//! The command `costs`.
ghost use Rattle.std.specs.Prelude.{◌≡◌, ◌≤◌, length, OnOk, IfOk, IfErr, IsTrue, string_bytes};
ghost use Rattle.cerco_base.specs.Outside.IoStates.{SameFiles};
ghost use Rattle.cerco_base.specs.Outside.InMemory.{sound_sink_state};
ghost use Rattle.cerco_command.specs.Answers.{Answers, KeepsFiles};
ghost use Rattle.cerco_command.specs.Messages.{label_name, cost_line, uncosted_line};
ghost use Rattle.cerco_command.specs.Inputs.{CannotRead, NoneTooLong};
ghost use Rattle.cerco_command.specs.Costs.{names_of, texts_of, with_names, AreTextsOf, after_text, labels_told, costs_told, Prints, PrintsCosts, CostsMeans, CostsMeansFor};
ghost use Rattle.cerco_command.specs.Words.{object_files_of};
ghost use Rattle.cerco_command.specs.declared.status.Status.TheVariants as Is;

use crate::inputs::{READ_LIMIT, check_length, read_input, read_object};
use crate::printing::{put_cost, put_uncosted};
use crate::reply::{Reply, answer, say, silent};
use crate::status::Status;
use crate::words::ObjectNames;
use block_costs::{CostFault, Marks, cost_of, start_cost};
use cerco_base::{Files, IoFault, NoMemory, Sink, SoundSink};
use printed_lines::Line;
use std::alloc::Global;

/// The texts of the files of an object.
#[derive(Drop)]
pub struct Texts {
    hex: Vec<u8>,
    map: Vec<u8>,
}

/// What is printed of costs, and the status.
#[derive(Drop)]
pub struct Printed {
    status: Status,
    text: SoundSink,
}

// What the lines of costs call a label.
fn label_name(number: usize) -> Line
    ensures { result ≡ label_name number }
{
    let mut name = Line::new();
    name.push(b'L');
    name.push_number(number as u64);
    name
}

// The line of a cost.
fn costed(alloc: Global, name: &[u8], cycles: u32) -> Result<SoundSink, IoFault>
    ensures { IfOk result (λ text. (sound_sink_state text).bytes ≡ cost_line name.now cycles) }
{
    let mut text = SoundSink::new(alloc);
    put_cost(name, cycles, &mut text)?;
    Ok(text)
}

// The line of a cost that is a fault.
fn uncosted(alloc: Global, name: &[u8], fault: CostFault) -> Result<Printed, IoFault>
    ensures status { IfOk result (λ printed. printed.status ≡ Is.Uncosted) }
    ensures line { IfOk result (λ printed. (sound_sink_state printed.text).bytes ≡ uncosted_line name.now fault) }
{
    let mut text = SoundSink::new(alloc);
    put_uncosted(name, fault, &mut text)?;
    Ok(Printed {
        status: Status::Uncosted,
        text,
    })
}

// Tells the costs of labels after a text.
fn tell_labels(
    alloc: Global,
    code: &[u8],
    marks: &Marks,
    labels: &[u16],
    before: SoundSink,
) -> Result<Printed, IoFault>
    requires { length code.now ≤ 65536 }
    ensures { IfOk result (λ printed. Prints (after_text (sound_sink_state before).bytes (labels_told code.now marks.now 0 labels.now)) printed.status (sound_sink_state printed.text).bytes) }
{
    let mut text = before;
    for (number, address) in labels.iter().enumerate() {
        let name = label_name(number);
        match cost_of(code, marks, *address) {
            Ok(cycles) => put_cost(name.as_slice(), cycles, &mut text)?,
            Err(fault) => return uncosted(alloc, name.as_slice(), fault),
        }
    }
    Ok(Printed {
        status: Status::Done,
        text,
    })
}

// Tells the costs of the start and of labels.
fn tell_all(alloc: Global, code: &[u8], marks: &Marks, labels: &[u16]) -> Result<Printed, IoFault>
    requires { length code.now ≤ 65536 }
    ensures { IfOk result (λ printed. Prints (costs_told code.now marks.now labels.now) printed.status (sound_sink_state printed.text).bytes) }
{
    match start_cost(code, marks) {
        Ok(cycles) => {
            let text = costed(alloc, b"start", cycles)?;
            tell_labels(alloc, code, marks, labels, text)
        }
        Err(fault) => uncosted(alloc, b"start", fault),
    }
}

// Tells the costs of an object.
fn tell_costs(alloc: Global, code: &[u8], labels: &[u16]) -> Result<Printed, NoMemory>
    requires { length code.now ≤ 65536 }
    ensures { IfOk result (λ printed. PrintsCosts code.now labels.now printed.status (sound_sink_state printed.text).bytes) }
{
    let marks = Marks::new(alloc, labels)?;
    match tell_all(alloc, code, &marks, labels) {
        Ok(printed) => Ok(printed),
        Err(_) => Err(NoMemory),
    }
}

fn read_texts<F: Files>(alloc: Global, names: &ObjectNames, files: &mut F) -> Result<Texts, Reply>
    ensures read { IsTrue (F.state files.old).known → IfOk result (λ texts. AreTextsOf (object_files_of names.now) (F.state files.old) (texts_of texts)) }
    ensures cannot { IfErr result (λ reply. CannotRead (names_of (object_files_of names.now)) (F.state files.old) (F.state files.new) reply.status (string_bytes reply.line)) }
    ensures same { IsTrue (F.state files.old).known → SameFiles (F.state files.old) (F.state files.new) }
    ensures keeps { KeepsFiles (F.state files.old) (F.state files.new) }
{
    let hex = read_input(alloc, &names.hex, READ_LIMIT, files)?;
    let map = read_input(alloc, &names.map, READ_LIMIT, files)?;
    Ok(Texts { hex, map })
}

fn check_lengths(alloc: Global, names: &ObjectNames, texts: &Texts) -> Result<(), Reply>
    ensures short { OnOk result (NoneTooLong (with_names (object_files_of names.now) (texts_of texts.now))) }
    ensures long { IfErr result (λ reply. CostsMeansFor (object_files_of names.now) (texts_of texts.now) reply.status (string_bytes reply.line)) }
{
    check_length(alloc, &names.hex, &texts.hex)?;
    check_length(alloc, &names.map, &texts.map)
}

// Tells the costs of the object of some texts.
fn tell(alloc: Global, names: &ObjectNames, texts: &Texts) -> Result<Printed, Reply>
    ensures told { IfOk result (λ printed. CostsMeansFor (object_files_of names.now) (texts_of texts.now) printed.status (sound_sink_state printed.text).bytes) }
    ensures cannot { IfErr result (λ reply. CostsMeansFor (object_files_of names.now) (texts_of texts.now) reply.status (string_bytes reply.line)) }
{
    check_lengths(alloc, names, texts)?;
    let object = read_object(alloc, &texts.hex, &texts.map)?;
    match tell_costs(alloc, object.code.as_slice(), object.labels.as_slice()) {
        Ok(printed) => Ok(printed),
        Err(_) => Err(silent(alloc, Status::NoMemory)),
    }
}

// Prints the costs of the object of some texts.
fn print_costs<O: Sink>(alloc: Global, names: &ObjectNames, texts: &Texts, out: &mut O) -> Status
    ensures { Answers (CostsMeansFor (object_files_of names.now) (texts_of texts.now)) (O.state out.old) (O.state out.new) result }
{
    match tell(alloc, names, texts) {
        Ok(printed) => say(out, printed.status, printed.text.bytes()),
        Err(reply) => answer(out, &reply),
    }
}

/// Prints the cost of an object's start and of each of its labels, in machine cycles; where one is a fault, the first of these alone.
pub fn costs<F: Files, O: Sink>(
    alloc: Global,
    names: &ObjectNames,
    files: &mut F,
    out: &mut O,
) -> Status
    ensures answers { Answers (CostsMeans (object_files_of names.now) (F.state files.old) (F.state files.new)) (O.state out.old) (O.state out.new) result }
    ensures keeps { KeepsFiles (F.state files.old) (F.state files.new) }
{
    match read_texts(alloc, names, files) {
        Ok(texts) => print_costs(alloc, names, &texts, out),
        Err(reply) => answer(out, &reply),
    }
}
