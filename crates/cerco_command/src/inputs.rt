//! The files that commands read, and the texts of an object in them.
ghost use Rattle.std.specs.Prelude.{◌≡◌, ◌<◌, ◌≤◌, ◌∷◌, [], length, nat_eq, string_bytes, OnOk, IfOk, IfErr, IsTrue};
ghost use Rattle.std.specs.List.{IsDistinct};
ghost use Rattle.cerco_base.specs.Outside.IoStates.{SameFiles};
ghost use Rattle.object_hex.specs.HexMeaning.{IsHexText};
ghost use Rattle.object_hex.specs.MapMeaning.{IsMapText};
ghost use Rattle.cerco_command.specs.Inputs.{IsRead, CannotRead, longest, HasNoCode, HasNoLabels, HasNoObject, AreObject};
ghost use Rattle.cerco_command.specs.Messages.{bad_file};
ghost use Rattle.cerco_command.specs.Code.Stages.{Replies};
ghost use Rattle.cerco_command.specs.declared.status.Status.TheVariants as Is;

use crate::reply::{Reply, bad_file, bad_hex, bad_map, file_fault, no_file, silent};
use crate::status::Status;
use cerco_base::{Code, Files, LabelList, ReadFault, read_whole};
use object_hex::{HexError, MapError, read_hex, read_map};
use std::alloc::Global;

/// How many bytes a file has at most that isn't a source.
const LONGEST: usize = 16_777_216;

/// How many bytes of such a file are read at most: one more than the longest file has.
pub const READ_LIMIT: usize = LONGEST + 1;

/// The bytes of a file, to its end or to the limit.
pub fn read_input<F: Files>(
    alloc: Global,
    name: &str,
    limit: usize,
    files: &mut F,
) -> Result<Vec<u8>, Reply>
    requires { 0 < limit }
    ensures read { IsTrue (F.state files.old).known → IfOk result (λ text. IsRead limit (F.state files.old) name.now text.items) }
    ensures cannot { IfErr result (λ reply. CannotRead (name.now ∷ []) (F.state files.old) (F.state files.new) reply.status (string_bytes reply.line)) }
    ensures same { IsTrue (F.state files.old).known → SameFiles (F.state files.old) (F.state files.new) }
    ensures known { IsTrue (F.state files.old).known → IsTrue (F.state files.new).known }
    ensures later { (F.state files.old).faults ≤ (F.state files.new).faults }
{
    match read_whole(alloc, files, name, limit) {
        Ok(text) => Ok(text),
        Err(ReadFault::Missing) => Err(no_file(alloc, name)),
        Err(ReadFault::Failed) => Err(file_fault(alloc, name)),
        Err(ReadFault::OutOfMemory) => Err(silent(alloc, Status::NoMemory)),
    }
}

/// Sees that a text isn't too long. The reply names its file.
pub fn check_length(alloc: Global, name: &str, text: &[u8]) -> Result<(), Reply>
    ensures short { OnOk result (length text.now ≤ longest) }
    ensures long { IfErr result (λ reply. longest < length text.now) }
    ensures reply { IfErr result (λ reply. Replies Is.BadInput (bad_file name.now) reply.status (string_bytes reply.line)) }
{
    if text.len() > LONGEST {
        return Err(bad_file(alloc, name));
    }
    Ok(())
}

/// The code that a hex text gives.
pub fn read_code(alloc: Global, text: &[u8]) -> Result<Code, Reply>
    requires { length text.now ≤ longest }
    ensures code { IfOk result (IsHexText text.now) }
    ensures short { IfOk result (λ code. length code ≤ 65536) }
    ensures no_code { IfErr result (λ reply. HasNoCode text.now reply.status (string_bytes reply.line)) }
{
    match read_hex(alloc, text) {
        Ok(code) => Ok(code),
        Err(HexError::Fault(fault)) => Err(bad_hex(alloc, fault)),
        Err(HexError::OutOfMemory) => Err(silent(alloc, Status::NoMemory)),
    }
}

/// The addresses of labels that a text gives.
pub fn read_labels(alloc: Global, text: &[u8]) -> Result<LabelList, Reply>
    requires { length text.now ≤ longest }
    ensures labels { IfOk result (IsMapText text.now) }
    ensures distinct { IfOk result (IsDistinct nat_eq) }
    ensures no_labels { IfErr result (λ reply. HasNoLabels text.now reply.status (string_bytes reply.line)) }
{
    match read_map(alloc, text) {
        Ok(labels) => Ok(labels),
        Err(MapError::Fault(fault)) => Err(bad_map(alloc, fault)),
        Err(MapError::OutOfMemory) => Err(silent(alloc, Status::NoMemory)),
    }
}

/// An object that was read.
#[derive(Drop)]
pub struct Object {
    /// Its code.
    pub code: Code,
    /// The addresses of its labels.
    pub labels: LabelList,
}

/// The object that a hex text and a text of addresses give.
pub fn read_object(alloc: Global, hex: &[u8], map: &[u8]) -> Result<Object, Reply>
    requires hex_short { length hex.now ≤ longest }
    requires map_short { length map.now ≤ longest }
    ensures object { IfOk result (λ object. AreObject hex.now map.now object.code object.labels) }
    ensures short { IfOk result (λ object. length object.code ≤ 65536) }
    ensures distinct { IfOk result (λ object. IsDistinct nat_eq object.labels) }
    ensures cannot { IfErr result (λ reply. HasNoObject hex.now map.now reply.status (string_bytes reply.line)) }
{
    let code = read_code(alloc, hex)?;
    let labels = read_labels(alloc, map)?;
    Ok(Object { code, labels })
}
