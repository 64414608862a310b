//! The commands of `cerco`, a C compiler for the MCS-51 whose running costs are exact: the call `cerco` is the whole program but
//! for the process around it.
#![tactic(auto)]

ghost use Rattle.std.specs.Prelude.{map, string_bytes, Some};
ghost use Rattle.cerco_command.specs.Words.{request_in, request_of, IsWellFormed};
ghost use Rattle.cerco_command.specs.Answers.{Answers, EndsWith, KeepsFiles};
ghost use Rattle.cerco_command.specs.Top.{Means};
ghost use Rattle.cerco_command.specs.Once.{MeansOnce};
ghost use Rattle.cerco_command.specs.Complete.{BuildsAll};

pub mod building;
pub mod costs;
pub mod erasing;
pub mod inputs;
pub mod listing;
pub mod printing;
pub mod refusal;
pub mod reply;
pub mod running;
pub mod status;
pub mod telling;
pub mod words;

use building::build;
use cerco_base::{Files, Sink};
use costs::costs;
use erasing::erase;
use listing::list;
use reply::{answer, usage};
use running::run;
use status::Status;
use std::alloc::Global;
use telling::meaning;
use words::{Command, WordsFault, read_words};

// Carries out a command.
fn obey<F: Files, O: Sink>(alloc: Global, command: &Command, files: &mut F, out: &mut O) -> Status
    requires { IsWellFormed (request_in command.now) }
    ensures answers { Answers (Means (Some (request_in command.now)) (F.state files.old) (F.state files.new)) (O.state out.old) (O.state out.new) result }
    ensures keeps { KeepsFiles (F.state files.old) (F.state files.new) }
{
    match command {
        Command::Build(names) => answer(out, &build(alloc, names, files)),
        Command::Run(words) => run(alloc, words, files, out),
        Command::List(hex) => list(alloc, hex, files, out),
        Command::Costs(names) => costs(alloc, names, files, out),
        Command::Erase(text) => erase(alloc, text, files, out),
        Command::Meaning(words) => meaning(alloc, words, files, out),
    }
}

// Carries out what the words ask for.
fn carry_out<F: Files, O: Sink>(
    alloc: Global,
    words: &[String],
    files: &mut F,
    out: &mut O,
) -> Status
    ensures answers { Answers (Means (request_of (map string_bytes words.now)) (F.state files.old) (F.state files.new)) (O.state out.old) (O.state out.new) result }
    ensures keeps { KeepsFiles (F.state files.old) (F.state files.new) }
{
    match read_words(alloc, words) {
        Ok(command) => obey(alloc, &command, files, out),
        Err(WordsFault::Usage) => answer(out, &usage(alloc)),
        Err(WordsFault::OutOfMemory) => Status::NoMemory,
    }
}

/// The whole program: its words after the program's name, its files and its output. The result is the exit status.
pub fn cerco<F: Files, O: Sink>(alloc: Global, words: &[String], files: &mut F, out: &mut O) -> u8
    ensures ends { EndsWith (Means (request_of (map string_bytes words.now)) (F.state files.old) (F.state files.new)) (O.state out.old) (O.state out.new) result }
    // the count of the files' faults never falls, and contents that are known stay known
    ensures keeps { KeepsFiles (F.state files.old) (F.state files.new) }
    // the files determine what is meant, but for faults and out of memory
    ensures once { MeansOnce (Means (request_of (map string_bytes words.now))) }
    // each source whose own bounds say that there is room is built, but for faults and out of memory
    ensures complete { BuildsAll (request_of (map string_bytes words.now)) (F.state files.old) (F.state files.new) (O.state out.old) (O.state out.new) result }
{
    carry_out(alloc, words, files, out).code()
}
