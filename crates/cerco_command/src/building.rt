//! The command `build`.
ghost use Rattle.std.specs.Prelude.{◌∷◌, [], ◌≤◌, length, IfOk, string_bytes};
ghost use Rattle.cerco_base.specs.Outside.InMemory.{sound_sink_state};
ghost use Rattle.object_hex.specs.HexMeaning.{IsHexText};
ghost use Rattle.object_hex.specs.MapMeaning.{IsMapText};
ghost use Rattle.cerco_command.specs.Words.{files_of, HaveDifferentNames};
ghost use Rattle.cerco_command.specs.Answers.{KeepsFiles};
ghost use Rattle.cerco_command.specs.Building.{AreCompiled, outputs, BuildMeans};
ghost use Rattle.cerco_command.specs.Code.Stages.{IsBuiltFrom, IsAnnotatedText, costs_in, MayStand, WritesAll, Finishes, BuildsOn};

use crate::inputs::read_input;
use crate::refusal::refused;
use crate::reply::{Reply, file_fault, silent};
use crate::status::Status;
use crate::words::BuildNames;
use annotate::annotate;
use cerco_base::{Fault, Files, IoFault, NoMemory, SoundSink, write_file};
use cerco_pipeline::{Built, build as compile};
use object_hex::{write_hex, write_map};
use std::alloc::Global;

/// How many bytes of a source are read at most: one more than the longest source has.
pub const SOURCE_LIMIT: usize = 65536;

/// The texts of the outputs.
#[derive(Drop)]
pub struct Texts {
    hex: SoundSink,
    map: SoundSink,
    annotated: SoundSink,
}

// The text of a code.
fn hex_text(alloc: Global, code: &[u8]) -> Result<SoundSink, NoMemory>
    requires { length code.now ≤ 65536 }
    ensures { IfOk result (λ text. IsHexText (sound_sink_state text).bytes code.now) }
{
    let mut text = SoundSink::new(alloc);
    match write_hex(code, &mut text) {
        Ok(()) => Ok(text),
        Err(_) => Err(NoMemory),
    }
}

// The text of the addresses of labels.
fn map_text(alloc: Global, labels: &[u16]) -> Result<SoundSink, NoMemory>
    requires { MayStand labels.now }
    ensures { IfOk result (λ text. IsMapText (sound_sink_state text).bytes labels.now) }
{
    let mut text = SoundSink::new(alloc);
    match write_map(labels, &mut text) {
        Ok(()) => Ok(text),
        Err(_) => Err(NoMemory),
    }
}

// The annotated source.
fn annotated_text(alloc: Global, source: &[u8], built: &Built) -> Result<SoundSink, NoMemory>
    requires { IsBuiltFrom source.now built.now }
    ensures { IfOk result (λ text. IsAnnotatedText source.now built.now.points (costs_in built.now) (sound_sink_state text).bytes) }
{
    let mut text = SoundSink::new(alloc);
    match annotate(source, &built.points, built.start, &built.costs, &mut text) {
        Ok(()) => Ok(text),
        Err(_) => Err(NoMemory),
    }
}

// The texts of what a source is compiled to.
fn make_texts(alloc: Global, source: &[u8], built: &Built) -> Result<Texts, NoMemory>
    requires { IsBuiltFrom source.now built.now }
    ensures { IfOk result (λ made. AreCompiled source.now
        (sound_sink_state made.hex).bytes (sound_sink_state made.map).bytes (sound_sink_state made.annotated).bytes) }
{
    let hex = hex_text(alloc, built.code.as_slice())?;
    let map = map_text(alloc, built.labels.as_slice())?;
    let annotated = annotated_text(alloc, source, built)?;
    Ok(Texts {
        hex,
        map,
        annotated,
    })
}

// Writes an output whole.
fn write_output<F: Files>(
    alloc: Global,
    files: &mut F,
    name: &str,
    text: &[u8],
) -> Result<(), Reply>
    ensures { WritesAll ((name.now, text.now) ∷ []) (F.state files.old) (F.state files.new) result }
{
    match write_file(files, name, text) {
        Ok(()) => Ok(()),
        Err(IoFault::Failed) => Err(file_fault(alloc, name)),
        Err(IoFault::OutOfMemory) => Err(silent(alloc, Status::NoMemory)),
    }
}

fn write_texts<F: Files>(
    alloc: Global,
    files: &mut F,
    names: &BuildNames,
    texts: &Texts,
) -> Result<(), Reply>
    ensures { WritesAll (outputs (files_of names.now)
        (sound_sink_state texts.now.hex).bytes (sound_sink_state texts.now.map).bytes (sound_sink_state texts.now.annotated).bytes)
        (F.state files.old) (F.state files.new) result }
{
    write_output(alloc, files, &names.hex, texts.hex.bytes())?;
    write_output(alloc, files, &names.map, texts.map.bytes())?;
    write_output(alloc, files, &names.annotated, texts.annotated.bytes())
}

fn finish<F: Files>(alloc: Global, files: &mut F, names: &BuildNames, texts: &Texts) -> Reply
    ensures finishes { Finishes (outputs (files_of names.now)
        (sound_sink_state texts.now.hex).bytes (sound_sink_state texts.now.map).bytes (sound_sink_state texts.now.annotated).bytes)
        (F.state files.old) (F.state files.new) result.status (string_bytes result.line) }
    ensures keeps { KeepsFiles (F.state files.old) (F.state files.new) }
{
    match write_texts(alloc, files, names, texts) {
        Ok(()) => silent(alloc, Status::Done),
        Err(reply) => reply,
    }
}

// Writes what a source is compiled to.
fn write_built<F: Files>(
    alloc: Global,
    names: &BuildNames,
    source: &[u8],
    built: &Built,
    files: &mut F,
) -> Reply
    requires { IsBuiltFrom source.now built.now }
    ensures builds { BuildsOn (files_of names.now) source.now (F.state files.old) (F.state files.new) result.status (string_bytes result.line) }
    ensures keeps { KeepsFiles (F.state files.old) (F.state files.new) }
{
    match make_texts(alloc, source, built) {
        Ok(texts) => finish(alloc, files, names, &texts),
        Err(_) => silent(alloc, Status::NoMemory),
    }
}

// Builds from a source that was read.
fn build_on<F: Files>(alloc: Global, names: &BuildNames, source: &[u8], files: &mut F) -> Reply
    ensures builds { BuildsOn (files_of names.now) source.now (F.state files.old) (F.state files.new) result.status (string_bytes result.line) }
    ensures keeps { KeepsFiles (F.state files.old) (F.state files.new) }
{
    match compile(alloc, source) {
        Ok(built) => write_built(alloc, names, source, &built, files),
        Err(Fault::Refused(reason)) => refused(alloc, reason),
        Err(Fault::OutOfMemory) => silent(alloc, Status::NoMemory),
    }
}

/// Compiles a source of at most 65,535 bytes, and writes the object, its labels and the annotated source, in this order. A source is
/// refused for the first reason why it has no syntax tree or its tree isn't sound, or since its program needs more cells or more code
/// than the machine has. No file is created then.
pub fn build<F: Files>(alloc: Global, names: &BuildNames, files: &mut F) -> Reply
    requires { HaveDifferentNames (files_of names.now) }
    ensures means { BuildMeans (files_of names.now) (F.state files.old) (F.state files.new) result.status (string_bytes result.line) }
    ensures keeps { KeepsFiles (F.state files.old) (F.state files.new) }
{
    match read_input(alloc, &names.source, SOURCE_LIMIT, files) {
        Ok(source) => build_on(alloc, names, &source, files),
        Err(reply) => reply,
    }
}
