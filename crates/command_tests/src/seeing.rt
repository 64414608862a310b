//! Runs of the program that are compared with what is wanted.

use cerco_base::{Files, MemoryFiles, MemorySink, NoMemory};
use cerco_command::cerco;
use std::alloc::Global;
use std::process::Abort;

/// A program of which the main function is empty.
pub const EMPTY: &[u8] = b"void main(void){}";

/// The object of the empty program, and of one that writes 5 to port 1.
pub const EMPTY_HEX: &[u8] = b":0A00000075817F12000880FE0022C7\n:00000001FF\n";

pub const WRITE_HEX: &[u8] = b":0D00000075817F12000880FE0075900522BA\n:00000001FF\n";

/// The address of their one label.
pub const MAP: &[u8] = b"0 0008\n";

/// Words, from a text with blanks between them.
pub fn split(alloc: Global, text: &str) -> Result<Vec<String>, NoMemory> {
    let mut words = Vec::new(alloc);
    for word in text.split_whitespace() {
        words.push(String::from_str(alloc, word)?)?;
    }
    Ok(words)
}

/// Runs the program on words: its status and what it prints.
pub fn run_words<F: Files>(
    alloc: Global,
    files: &mut F,
    words: &str,
) -> Result<(u8, MemorySink), NoMemory> {
    let list = split(alloc, words)?;
    let mut out = MemorySink::new(alloc);
    let status = cerco(alloc, &list, files, &mut out);
    Ok((status, out))
}

/// Runs the program on words, and sees its status and what it prints.
pub fn see<F: Files>(
    rt: &impl Abort,
    alloc: Global,
    files: &mut F,
    words: &str,
    status: u8,
    printed: &str,
) -> Result<(), NoMemory> {
    let (found, out) = run_words(alloc, files, words)?;
    assert_eq!(rt; found, status, "{words}");
    assert_eq!(rt; out.bytes(), printed.as_bytes(), "{words}");
    Ok(())
}

/// Sees the bytes of a file.
pub fn see_file(rt: &impl Abort, files: &MemoryFiles, name: &str, bytes: &[u8]) {
    let found = files.bytes(name).unwrap_or(b"no such file");
    assert_eq!(rt; found, bytes, "the file {name}");
}

/// Sees that there is no such file.
pub fn see_no_file(rt: &impl Abort, files: &MemoryFiles, name: &str) {
    assert_eq!(rt; files.bytes(name).is_none(), true, "the file {name}");
}
