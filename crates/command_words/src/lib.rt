//! The words of a command line, read by `clap`: the name of a command, and its operands.
#![tactic(auto)]

ghost use Rattle.std.specs.Prelude.{◌≡◌, ◌≢◌, ◌∷◌, [], ◌<◌, IfOk, IfErr, None, Some, length, map, string_bytes};
ghost use Rattle.std.specs.Prelude.{codes, true, unwrap_or, option_map};
ghost use Rattle.clap.specs.Words.{App, app_of, kind_of, found_of, matched_of, raw_values};
ghost use Rattle.command_words.specs.Lines.{are_operands, is_operand, line_of, line_in, operand_count};
ghost use Rattle.command_words.specs.Code.Grammar.{grammar_app};
ghost use Rattle.command_words.specs.declared.LineFault.TheVariants.{Usage, OutOfMemory};

use clap::error::ErrorKind;
use clap::{Arg, ArgAction, ArgMatches, Command, Error};
use std::alloc::{AllocError, Global};
use thiserror::Error as FaultText;

/// The commands, each with the number of its operands.
static FORMS: [(&str, usize); 6] = [
    ("build", 4),
    ("run", 4),
    ("meaning", 3),
    ("costs", 2),
    ("erase", 1),
    ("list", 1),
];

/// The most operands that a command has.
const MOST_OPERANDS: usize = 4;

/// A command line: the name of a command, and as many operands as it has.
#[derive(Drop)]
pub struct CommandLine<'a> {
    /// The name of the command.
    pub name: &'a str,
    /// Its operands, in their order.
    pub operands: Vec<&'a str>,
}

/// Why words aren't read as a command line.
#[derive(Clone, Copy, Debug, PartialEq, Eq, FaultText)]
pub enum LineFault {
    /// They are none.
    #[error("usage")]
    Usage,
    /// There was no memory for them.
    #[error("out of memory")]
    OutOfMemory,
}

impl From<AllocError> for LineFault {
    ghost from_gives = { λ _ fault. fault ≡ OutOfMemory };

    fn from(_: AllocError) -> Self {
        LineFault::OutOfMemory
    }
}

fn is_operand(word: &str) -> bool
    ensures { result ≡ is_operand word.now }
{
    match word.as_bytes() {
        [] => false,
        [first, ..] => *first != b'-',
    }
}

fn are_operands(words: &[String]) -> bool
    ensures { result ≡ are_operands (map string_bytes words.now) }
{
    words.iter().all(|word| is_operand(word))
}

// How many operands the command of this name has.
fn operand_count(name: &str) -> Option<usize>
    ensures { result ≡ operand_count name.now }
{
    match FORMS.iter().find(|form| form.0 == name) {
        Some(form) => Some(form.1),
        None => None,
    }
}

// What clap reads: a name, and at most four operands; no option, no help and no version.
fn grammar<'a>(alloc: Global) -> Result<Command<'a>, AllocError>
    ensures { IfOk result (λ command. app_of command ≡ grammar_app) }
{
    let name = Arg::new(alloc, "name")
        .required(true)
        .action(ArgAction::Set);
    let operands = Arg::new(alloc, "operands")
        .action(ArgAction::Set)
        .num_args(..=MOST_OPERANDS);
    Command::new(alloc, "cerco")
        .no_binary_name(true)
        .disable_help_flag(true)
        .disable_version_flag(true)
        .arg(name)?
        .arg(operands)
}

// clap's fault of words that may be operands.
fn fault_of(error: &Error) -> LineFault
    ensures { result ≡ Usage → kind_of error.now ≢ ErrorKind.OutOfMemory }
{
    match error.kind() {
        ErrorKind::OutOfMemory => LineFault::OutOfMemory,
        _ => LineFault::Usage,
    }
}

// The operands that clap found.
fn operands_of<'a>(alloc: Global, matches: &ArgMatches<'a>) -> Result<Vec<&'a str>, AllocError>
    ensures { IfOk result (λ operands. map (λ operand. operand.now) operands.items ≡ unwrap_or (option_map raw_values (matched_of (found_of matches.now) (codes "operands"))) []) }
{
    match matches.get_strs("operands") {
        Some(operands) => Vec::from_slice(alloc, operands),
        None => Ok(Vec::new(alloc)),
    }
}

// The name and the operands that clap reads in words that may be operands.
fn parse<'a>(alloc: Global, words: &'a [String]) -> Result<CommandLine<'a>, LineFault>
    requires { (are_operands (map string_bytes words.now) ≡ true) × (0 < length words.now) }
    ensures line { IfOk result (λ line. map string_bytes words.now ≡ (line_in line).0 ∷ (line_in line).1) }
    ensures usage { IfErr result (λ fault. fault ≡ Usage → 5 < length words.now) }
{
    let matches = match grammar(alloc)?.try_get_matches_from(words) {
        Ok(matches) => matches,
        Err(error) => return Err(fault_of(&error)),
    };
    let name = match matches.get_str("name") {
        Some(name) => name,
        None => return Err(LineFault::Usage),
    };
    let operands = operands_of(alloc, &matches)?;
    Ok(CommandLine { name, operands })
}

/// The name of a command and its operands that the words after the program's name are.
pub fn read_line<'a>(alloc: Global, words: &'a [String]) -> Result<CommandLine<'a>, LineFault>
    ensures line { IfOk result (λ line. line_of (map string_bytes words.now) ≡ Some (line_in line)) }
    ensures usage { IfErr result (λ fault. fault ≡ Usage → line_of (map string_bytes words.now) ≡ None) }
{
    if words.is_empty() || !are_operands(words) {
        return Err(LineFault::Usage);
    }
    let line = parse(alloc, words)?;
    if operand_count(line.name) != Some(line.operands.len()) {
        return Err(LineFault::Usage);
    }
    Ok(line)
}
