//! The words of the command line.
ghost use Rattle.std.specs.Prelude.{◌≡◌, ◌≢◌, ℕ, ◌≤◌, IfOk, IfErr, None, Some, MatchOption, string_bytes, map, option_map, decimal};
ghost use Rattle.cerco_command.specs.Words.{is_name, all_differ, is_build, has_run_names, build_of, run_of, list_of, costs_of, erase_of, meaning_of, has_meaning_names, meaning_of_words, request_of, request_in, files_of, run_of_words, object_files_of, IsWellFormed};
ghost use Rattle.cerco_command.specs.declared.words.WordsFault.TheVariants.{Usage, OutOfMemory};

use itoa::Buffer;
use std::alloc::{AllocError, Global};
use thiserror::Error;

/// The most machine cycles after which `run` can be asked to stop.
const MOST_CYCLES: u32 = 1_000_000_000;

/// The names of the files of `build`.
#[derive(Drop)]
pub struct BuildNames {
    /// The C source that is read.
    pub source: String,
    /// The object that is written, in Intel HEX.
    pub hex: String,
    /// The addresses of the labels, which are written.
    pub map: String,
    /// The annotated source that is written.
    pub annotated: String,
}

/// The names of the files of `run`, which reads them, and where it stops.
#[derive(Drop)]
pub struct RunWords {
    /// The object, in Intel HEX.
    pub hex: String,
    /// The addresses of the labels.
    pub map: String,
    /// The bytes that the pins of ports show, one for each reading.
    pub script: String,
    /// After how many machine cycles it stops, at most 1,000,000,000.
    pub limit: u32,
}

/// The names of the files of an object, which are read.
#[derive(Drop)]
pub struct ObjectNames {
    /// The object, in Intel HEX.
    pub hex: String,
    /// The addresses of the labels.
    pub map: String,
}

/// The words of `meaning`.
#[derive(Drop)]
pub struct MeaningWords {
    /// The source, which is read.
    pub source: String,
    /// The bytes that the ports' pins show, which are read.
    pub script: String,
    /// How many labels the run passes at most.
    pub limit: u32,
}

/// A command of the program.
#[derive(Drop)]
pub enum Command {
    /// Compiles a source.
    Build(BuildNames),
    /// Prints the events of an object's run.
    Run(RunWords),
    /// Prints the instructions of an object, which has this name.
    List(String),
    /// Prints the costs of an object's start and of its labels.
    Costs(ObjectNames),
    /// Prints an annotated text, which has this name, without its annotations.
    Erase(String),
    /// Prints what a source means on a port script, with its costs.
    Meaning(MeaningWords),
}

/// Why words aren't read as a command.
#[derive(Clone, Copy, Debug, PartialEq, Eq, Error)]
pub enum WordsFault {
    /// They are no command.
    #[error("usage")]
    Usage,
    /// There was no memory for them.
    #[error("out of memory")]
    OutOfMemory,
}

impl From<AllocError> for WordsFault {
    ghost from_gives = { λ _ fault. fault ≡ OutOfMemory };

    fn from(_: AllocError) -> Self {
        WordsFault::OutOfMemory
    }
}

fn is_name(word: &str) -> bool
    ensures { result ≡ is_name word.now }
{
    match word.as_bytes() {
        [] => false,
        [first, ..] => *first != b'-',
    }
}

fn all_differ(a: &str, b: &str, c: &str, d: &str) -> bool
    ensures { result ≡ all_differ a.now b.now c.now d.now }
{
    a != b && a != c && a != d && b != c && b != d && c != d
}

fn is_build(word: &str, source: &str, hex: &str, map: &str, annotated: &str) -> bool
    ensures { result ≡ is_build word.now source.now hex.now map.now annotated.now }
{
    word == "build"
        && is_name(source)
        && is_name(hex)
        && is_name(map)
        && is_name(annotated)
        && all_differ(source, hex, map, annotated)
}

// The names of a `build`, none where the words are none.
fn read_build(alloc: Global, words: &[String]) -> Result<Option<BuildNames>, AllocError>
    ensures { IfOk result (λ names. option_map files_of names ≡ build_of (map string_bytes words.now)) }
{
    let [word, source, hex, map, annotated] = words else {
        return Ok(None);
    };
    if !is_build(word, source, hex, map, annotated) {
        return Ok(None);
    }
    Ok(Some(BuildNames {
        source: String::from_str(alloc, source)?,
        hex: String::from_str(alloc, hex)?,
        map: String::from_str(alloc, map)?,
        annotated: String::from_str(alloc, annotated)?,
    }))
}

// The number of cycles or of labels that a word writes in decimal, without a leading zero.
fn read_limit(word: &str) -> Option<u32>
    ensures { MatchOption result ((n : ℕ) → n ≤ 1000000000 → word.now ≢ decimal n) (λ n. (n ≤ 1000000000) × (word.now ≡ decimal n)) }
{
    let Ok(limit) = word.parse::<u32>() else {
        return None;
    };
    if Buffer::new().format(limit) != word || limit > MOST_CYCLES {
        return None;
    }
    Some(limit)
}

fn has_run_names(word: &str, hex: &str, map: &str, script: &str) -> bool
    ensures { result ≡ has_run_names word.now hex.now map.now script.now }
{
    word == "run" && is_name(hex) && is_name(map) && is_name(script)
}

// The words of a `run`, none where they are none.
fn read_run(alloc: Global, words: &[String]) -> Result<Option<RunWords>, AllocError>
    ensures { IfOk result (λ read. option_map run_of_words read ≡ run_of (map string_bytes words.now)) }
{
    let [word, hex, map, script, limit] = words else {
        return Ok(None);
    };
    let Some(limit) = read_limit(limit) else {
        return Ok(None);
    };
    if !has_run_names(word, hex, map, script) {
        return Ok(None);
    }
    Ok(Some(RunWords {
        hex: String::from_str(alloc, hex)?,
        map: String::from_str(alloc, map)?,
        script: String::from_str(alloc, script)?,
        limit,
    }))
}

// The name of a `list`, none where the words are none.
fn read_list(alloc: Global, words: &[String]) -> Result<Option<String>, AllocError>
    ensures { IfOk result (λ name. option_map string_bytes name ≡ list_of (map string_bytes words.now)) }
{
    let [word, hex] = words else {
        return Ok(None);
    };
    if word.as_str() != "list" || !is_name(hex) {
        return Ok(None);
    }
    Ok(Some(String::from_str(alloc, hex)?))
}

// The names of a `costs`, none where the words are none.
fn read_costs(alloc: Global, words: &[String]) -> Result<Option<ObjectNames>, AllocError>
    ensures { IfOk result (λ names. option_map object_files_of names ≡ costs_of (map string_bytes words.now)) }
{
    let [word, hex, map] = words else {
        return Ok(None);
    };
    if word.as_str() != "costs" || !is_name(hex) || !is_name(map) {
        return Ok(None);
    }
    Ok(Some(ObjectNames {
        hex: String::from_str(alloc, hex)?,
        map: String::from_str(alloc, map)?,
    }))
}

// The name of an `erase`, none where the words are none.
fn read_erase(alloc: Global, words: &[String]) -> Result<Option<String>, AllocError>
    ensures { IfOk result (λ name. option_map string_bytes name ≡ erase_of (map string_bytes words.now)) }
{
    let [word, text] = words else {
        return Ok(None);
    };
    if word.as_str() != "erase" || !is_name(text) {
        return Ok(None);
    }
    Ok(Some(String::from_str(alloc, text)?))
}

fn has_meaning_names(word: &str, source: &str, script: &str) -> bool
    ensures { result ≡ has_meaning_names word.now source.now script.now }
{
    word == "meaning" && is_name(source) && is_name(script)
}

// The words of a `meaning`, none where they are none.
fn read_meaning(alloc: Global, words: &[String]) -> Result<Option<MeaningWords>, AllocError>
    ensures { IfOk result (λ read. option_map meaning_of_words read ≡ meaning_of (map string_bytes words.now)) }
{
    let [word, source, script, limit] = words else {
        return Ok(None);
    };
    let Some(limit) = read_limit(limit) else {
        return Ok(None);
    };
    if !has_meaning_names(word, source, script) {
        return Ok(None);
    }
    Ok(Some(MeaningWords {
        source: String::from_str(alloc, source)?,
        script: String::from_str(alloc, script)?,
        limit,
    }))
}

/// The command that the words after the program's name are.
pub fn read_words(alloc: Global, words: &[String]) -> Result<Command, WordsFault>
    ensures command { IfOk result (λ command. Some (request_in command) ≡ request_of (map string_bytes words.now)) }
    ensures well_formed { IfOk result (λ command. IsWellFormed (request_in command)) }
    ensures usage { IfErr result (λ fault. fault ≡ Usage → request_of (map string_bytes words.now) ≡ None) }
{
    if let Some(names) = read_build(alloc, words)? {
        return Ok(Command::Build(names));
    }
    if let Some(words) = read_run(alloc, words)? {
        return Ok(Command::Run(words));
    }
    if let Some(hex) = read_list(alloc, words)? {
        return Ok(Command::List(hex));
    }
    if let Some(names) = read_costs(alloc, words)? {
        return Ok(Command::Costs(names));
    }
    if let Some(text) = read_erase(alloc, words)? {
        return Ok(Command::Erase(text));
    }
    if let Some(words) = read_meaning(alloc, words)? {
        return Ok(Command::Meaning(words));
    }
    Err(WordsFault::Usage)
}
