//! Costs of objects, and texts without their annotations.

use crate::seeing::{EMPTY, EMPTY_HEX, MAP, run_words, see, split};
use cerco_base::{Files, MemoryFiles, MemorySink, NoMemory, SoundFiles};
use cerco_command::cerco;
use std::alloc::Global;
use std::process::Abort;

// The longest file that isn't a source, in bytes.
const LONGEST: usize = 16_777_216;

const END: &str = ":00000001FF\n";

const EMPTY_OBJECT: &str = ":0A00000075817F12000880FE0022C7\n:00000001FF\n";

// A program with two arms, of which one is empty.
const ARMS: &[u8] = b"void main(void){unsigned char a;a=P1;if(a);else P1=1;}";

// The files of an object and the addresses of its labels; the status and what is printed.
#[rattlefmt::skip]
const OBJECTS: [(&str, &str, u8, &str); 15] = [
    (EMPTY_OBJECT, "0 0008\n", 0, "start 4\nL0 3\n"),
    (EMPTY_OBJECT, "", 0, "start 7\n"),
    // the costs come in the order of the labels; the last one goes on through the zeros behind the code
    (EMPTY_OBJECT, "0 0009\n1 0008\n2 000A\n", 0, "start 4\nL0 2\nL1 1\nL2 65530\n"),
    // a label at the start, and one at the halt
    (EMPTY_OBJECT, "0 0000\n1 0006\n", 0, "start 0\nL0 7\nL1 0\n"),
    // RET
    (":0100000022DD\n:00000001FF\n", "", 0, "start 2\n"),
    // JZ over a NOP to SJMP $
    (":0500000060010080FE1C\n:00000001FF\n", "", 7, "uncosted start unequal 0000 3 2\n"),
    (":0500000060010080FE1C\n:00000001FF\n", "0 0000\n", 7, "uncosted L0 unequal 0000 3 2\n"),
    // JMP @A+DPTR
    (":01000000738C\n:00000001FF\n", "", 7, "uncosted start notarget 0000\n"),
    // RET; JMP @A+DPTR
    (":02000000227369\n:00000001FF\n", "0 0000\n1 0001\n", 7, "uncosted L1 notarget 0001\n"),
    (":02000000227369\n:00000001FF\n", "0 0001\n1 0000\n", 7, "uncosted L0 notarget 0001\n"),
    // JZ; JZ; SJMP $
    (":060000006000600080FEBC\n:00000001FF\n", "", 7, "uncosted start second 0002\n"),
    // A5H
    (":01000000A55A\n:00000001FF\n", "", 7, "uncosted start reserved 0000\n"),
    // no byte
    (END, "", 7, "uncosted start nolabel 0000\n"),
    // bad texts
    (EMPTY_OBJECT, "0 0008\n1 0008\n", 6, "bad map 2\n"),
    (":00000001FE\n", "1 0008\n", 6, "bad hex 1 sum\n"),
];

#[test]
fn objects_have_costs(rt: HostRuntime) -> Result<(), NoMemory> {
    let alloc = rt.alloc();
    let mut files = MemoryFiles::new(alloc);
    for (hex, map, status, printed) in &OBJECTS {
        files.place("h", hex.as_bytes())?;
        files.place("m", map.as_bytes())?;
        see(&rt, alloc, &mut files, "costs h m", *status, printed)?;
    }
    Ok(())
}

// Builds a source, and sees its costs and that its annotations can be taken out.
fn see_built<F: Files>(
    rt: &impl Abort,
    alloc: Global,
    files: &mut F,
    source: &[u8],
    costs: &str,
) -> Result<(), NoMemory> {
    see(rt, alloc, files, "build a.c h m n", 0, "")?;
    see(rt, alloc, files, "costs h m", 0, costs)?;
    let (status, out) = run_words(alloc, files, "erase n")?;
    assert_eq!(rt; status, 0);
    assert_eq!(rt; out.bytes(), source);
    Ok(())
}

#[test]
fn built_objects_have_costs(rt: HostRuntime) -> Result<(), NoMemory> {
    let alloc = rt.alloc();
    let mut files = SoundFiles::new(alloc);
    files.place("a.c", EMPTY)?;
    see_built(&rt, alloc, &mut files, EMPTY, "start 4\nL0 3\n")?;
    files.place("a.c", ARMS)?;
    see_built(&rt, alloc, &mut files, ARMS, "start 4\nL0 19\nL1 5\nL2 9\n")
}

#[test]
fn annotations_are_taken_out(rt: HostRuntime) -> Result<(), NoMemory> {
    let alloc = rt.alloc();
    let mut files = MemoryFiles::new(alloc);
    files.place("a", b"a/*@*/b")?;
    see(&rt, alloc, &mut files, "erase a", 0, "a")?;
    files.place("a", b"a/*@*/b/*@*/c/*@/*@*/*/d")?;
    see(&rt, alloc, &mut files, "erase a", 0, "ac/*@")?;
    files.place("a", b"")?;
    see(&rt, alloc, &mut files, "erase a", 0, "")
}

#[test]
fn missing_and_long_files_are_named(rt: HostRuntime) -> Result<(), NoMemory> {
    let alloc = rt.alloc();
    let mut files = MemoryFiles::new(alloc);
    see(&rt, alloc, &mut files, "erase n", 1, "no file n\n")?;
    files.place("h", b"no hex text")?;
    see(&rt, alloc, &mut files, "costs h m", 1, "no file m\n")?;
    files.place("m", &vec![in alloc; b'0'; LONGEST + 1]?)?;
    see(&rt, alloc, &mut files, "costs h m", 6, "bad file m\n")?;
    see(&rt, alloc, &mut files, "costs m m", 6, "bad file m\n")?;
    see(&rt, alloc, &mut files, "erase m", 6, "bad file m\n")
}

// Sees that words over an output whose first call fails end with status 5, and that nothing is printed.
fn see_unput(
    rt: &impl Abort,
    alloc: Global,
    files: &mut MemoryFiles,
    words: &str,
) -> Result<(), NoMemory> {
    let list = split(alloc, words)?;
    let mut out = MemorySink::new(alloc);
    out.fail(0)?;
    assert_eq!(rt; cerco(alloc, &list, files, &mut out), 5, "{words}");
    assert_eq!(rt; out.bytes(), b"".as_slice(), "{words}");
    Ok(())
}

#[test]
fn failing_calls_are_told(rt: HostRuntime) -> Result<(), NoMemory> {
    let alloc = rt.alloc();
    let mut files = MemoryFiles::new(alloc);
    files.place("h", EMPTY_HEX)?;
    files.place("m", MAP)?;
    see_unput(&rt, alloc, &mut files, "costs h m")?;
    see_unput(&rt, alloc, &mut files, "erase h")?;
    // six calls that read were made
    files.fail(6)?;
    see(&rt, alloc, &mut files, "costs h m", 4, "file fault h\n")?;
    files.fail(7)?;
    see(&rt, alloc, &mut files, "erase m", 4, "file fault m\n")
}
