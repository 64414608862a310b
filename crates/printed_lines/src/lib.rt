//! Lines of a word and numbers, and texts that are put by pieces: what the commands print that tell of a run.
#![tactic(auto)]

ghost use Rattle.std.specs.Prelude.{◌≡◌, ◌∷◌, [], ◌++◌, decimal, IfOk, IfErr};
ghost use Rattle.cerco_base.specs.Outside.IoCalls.{PutsText};
ghost use Rattle.cerco_base.specs.Outside.InMemory.{sound_sink_state};
ghost use Rattle.printed_lines.specs.Lines.{line_about, pair_line};
ghost use Rattle.printed_lines.specs.Pieces.{PutsFront};

pub mod line;

use cerco_base::{IoFault, Sink, SoundSink, put_all};
use itoa::Buffer;
pub use line::Line;
use std::alloc::Global;

/// How many bytes are pending before they are put.
const PIECE: usize = 4096;

/// Puts a word and a number.
pub fn put_number<O: Sink>(word: &str, number: u64, out: &mut O) -> Result<(), IoFault>
    ensures { PutsText (O.state out.old) (O.state out.new) (word.now ++ decimal number) result }
{
    put_all(out, word.as_bytes())?;
    put_all(out, Buffer::new().format(number).as_bytes())
}

/// Puts a line with a word and a number.
pub fn put_count<O: Sink>(word: &str, number: u64, out: &mut O) -> Result<(), IoFault>
    ensures { PutsText (O.state out.old) (O.state out.new) (line_about word.now (decimal number)) result }
{
    put_number(word, number, out)?;
    put_all(out, b"\n")
}

/// Puts a line with a letter and two numbers.
pub fn put_pair<O: Sink>(letter: u8, first: u64, second: u64, out: &mut O) -> Result<(), IoFault>
    ensures { PutsText (O.state out.old) (O.state out.new) (pair_line (letter ∷ []) first second) result }
{
    let mut line = Line::new();
    line.push(letter);
    line.push_number(first);
    line.push(b' ');
    line.push_number(second);
    line.push(b'\n');
    put_all(out, line.as_slice())
}

/// Puts a text that is pending, once it is long, and gives what is pending then.
///
/// # Errors
///
/// The fault of the output. A prefix of the text was put then.
pub fn put_pending<O: Sink>(
    alloc: Global,
    pending: SoundSink,
    out: &mut O,
) -> Result<SoundSink, IoFault>
    ensures front { IfOk result (λ left. PutsFront (O.state out.old) (O.state out.new) (sound_sink_state pending).bytes (sound_sink_state left).bytes) }
    ensures fault { IfErr result (λ fault. PutsText {T = Unit {0}} (O.state out.old) (O.state out.new) (sound_sink_state pending).bytes (Err fault)) }
{
    if pending.bytes().len() < PIECE {
        return Ok(pending);
    }
    put_all(out, pending.bytes())?;
    Ok(SoundSink::new(alloc))
}
