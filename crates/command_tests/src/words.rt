//! Words that are no command.

use crate::seeing::{EMPTY, see, split};
use cerco_base::{MemoryFiles, MemorySink, NoMemory};
use cerco_command::cerco;

const USAGE: [&str; 28] = [
    "",
    "build a b c",
    "build a b c d e",
    "build a b b c",
    "build -a b c d",
    "-h",
    "run a b c 1000000001",
    "run a b c 05",
    "run a b c +5",
    "run a b -c 5",
    "run a b c",
    "list",
    "list -a",
    "list a a",
    "costs",
    "costs a",
    "costs a b c",
    "costs -a b",
    "costs a -b",
    "erase",
    "erase a b",
    "erase -a",
    "meaning a b",
    "meaning a b c",
    "meaning a b 05",
    "meaning a b 1000000001",
    "meaning -a b 5",
    "meaning a b 5 5",
];

#[test]
fn other_words_are_no_command(rt: HostRuntime) -> Result<(), NoMemory> {
    let mut files = MemoryFiles::new(rt.alloc());
    files.place("a", EMPTY)?;
    for words in &USAGE {
        see(&rt, rt.alloc(), &mut files, words, 2, "usage\n")?;
    }
    see(
        &rt,
        rt.alloc(),
        &mut files,
        "run b b b 1000000000",
        1,
        "no file b\n",
    )
}

#[test]
fn an_empty_word_is_no_name(rt: HostRuntime) -> Result<(), NoMemory> {
    let alloc = rt.alloc();
    let mut words = split(alloc, "build a h m")?;
    words.push(String::new(alloc))?;
    let mut out = MemorySink::new(alloc);
    let status = cerco(alloc, &words, &mut MemoryFiles::new(alloc), &mut out);
    assert_eq!(rt; status, 2);
    Ok(())
}
