//! The command `list`.
ghost use Rattle.std.specs.Prelude.{◌≡◌, ◌≤◌, ◌<◌, length, slice_index, IfOk};
ghost use Rattle.cerco_base.specs.Outside.InMemory.{sound_sink_state};
ghost use Rattle.mcs51_isa.specs.Decoding.{with_length};
ghost use Rattle.cerco_command.specs.Answers.{Answers, KeepsFiles};
ghost use Rattle.cerco_command.specs.Disassembly.{listed_at, ListsTo, ListMeans, ListMeansFor};
ghost use Rattle.cerco_command.specs.Code.Stages.{LineListed};

use crate::inputs::{READ_LIMIT, check_length, read_code, read_input};
use crate::printing::put_reserved;
use crate::reply::{answer, say};
use crate::status::Status;
use cerco_base::{Files, IoFault, Sink, SoundSink};
use mcs51_isa::{Instr, decode, list_line};
use printed_lines::put_pending;
use std::alloc::Global;

// The byte at an address, 0 past the code's end.
fn byte_at(code: &[u8], address: usize) -> u8
    ensures { result ≡ slice_index code.now address }
{
    match code.get(address) {
        Some(byte) => *byte,
        None => 0,
    }
}

// The instruction at an address, and its length; none where the reserved opcode stands there.
fn instr_at(code: &[u8], address: usize) -> Option<(Instr, u8)>
    requires { address < length code.now }
    ensures { result ≡ with_length (listed_at code.now address) }
{
    decode([
        byte_at(code, address),
        byte_at(code, address + 1),
        byte_at(code, address + 2),
    ])
}

// Adds the line of an address to a pending text, and gives the next address; none where the reserved opcode stands there.
fn list_one(code: &[u8], address: usize, pending: &mut SoundSink) -> Result<Option<usize>, IoFault>
    requires within { address < length code.now }
    requires small { length code.now ≤ 65536 }
    ensures { IfOk result (λ next. LineListed code.now address next (sound_sink_state pending.old).bytes (sound_sink_state pending.new).bytes) }
{
    match instr_at(code, address) {
        Some((instr, length)) => {
            list_line(address as u16, instr, pending)?;
            Ok(Some(address + length as usize))
        }
        None => {
            put_reserved(address as u16, pending)?;
            Ok(None)
        }
    }
}

// Prints the listing of a code.
fn print_listing<O: Sink>(alloc: Global, code: &[u8], out: &mut O) -> Status
    requires { length code.now ≤ 65536 }
    ensures { Answers (ListsTo code.now) (O.state out.old) (O.state out.new) result }
{
    let mut pending = SoundSink::new(alloc);
    let mut address = 0;
    while address < code.len() {
        match list_one(code, address, &mut pending) {
            Ok(Some(next)) => address = next,
            Ok(None) => return say(out, Status::Reserved, pending.bytes()),
            Err(_) => return Status::NoMemory,
        }
        pending = match put_pending(alloc, pending, out) {
            Ok(left) => left,
            Err(fault) => return Status::of_fault(fault),
        };
    }
    say(out, Status::Done, pending.bytes())
}

// Lists the code of a text.
fn list_text<O: Sink>(alloc: Global, name: &str, text: &[u8], out: &mut O) -> Status
    ensures { Answers (ListMeansFor name.now text.now) (O.state out.old) (O.state out.new) result }
{
    if let Err(reply) = check_length(alloc, name, text) {
        return answer(out, &reply);
    }
    match read_code(alloc, text) {
        Ok(code) => print_listing(alloc, code.as_slice(), out),
        Err(reply) => answer(out, &reply),
    }
}

/// Prints the instructions of an object from address 0 to its end, or to the reserved opcode.
pub fn list<F: Files, O: Sink>(alloc: Global, name: &str, files: &mut F, out: &mut O) -> Status
    ensures answers { Answers (ListMeans name.now (F.state files.old) (F.state files.new)) (O.state out.old) (O.state out.new) result }
    ensures keeps { KeepsFiles (F.state files.old) (F.state files.new) }
{
    match read_input(alloc, name, READ_LIMIT, files) {
        Ok(text) => list_text(alloc, name, &text, out),
        Err(reply) => answer(out, &reply),
    }
}
