//! Files that are missing, and calls of the outside that fail.

use crate::seeing::{EMPTY, EMPTY_HEX, MAP, see, see_file, see_no_file, split};
use cerco_base::{MemoryFiles, MemorySink, NoMemory};
use cerco_command::cerco;
use std::alloc::Global;
use std::process::Abort;

// `build` without its source, and then with a failing creation of `m`. The calls are numbered over all runs: one for the missing
// file, two that read, two that write `h`, and then `m` is created.
fn see_build(rt: &impl Abort, alloc: Global, files: &mut MemoryFiles) -> Result<(), NoMemory> {
    see(rt, alloc, files, "build a.c h m n", 1, "no file a.c\n")?;
    see_no_file(rt, files, "h");
    files.place("a.c", EMPTY)?;
    files.fail(5)?;
    see(rt, alloc, files, "build a.c h m n", 4, "file fault m\n")?;
    see_file(rt, files, "h", EMPTY_HEX);
    see_no_file(rt, files, "m");
    see_file(rt, files, "a.c", EMPTY);
    Ok(())
}

// The next call is number 6. `run` reads `h` by two calls, misses `m`, and doesn't come to `s`.
fn see_run(rt: &impl Abort, alloc: Global, files: &mut MemoryFiles) -> Result<(), NoMemory> {
    see(rt, alloc, files, "run h m s 5", 1, "no file m\n")?;
    files.place("m", MAP)?;
    files.fail(11)?;
    see(rt, alloc, files, "run h m s 5", 4, "file fault m\n")?;
    files.fail(12)?;
    see(rt, alloc, files, "list h", 4, "file fault h\n")
}

#[test]
fn faults_and_missing_files_are_named(rt: HostRuntime) -> Result<(), NoMemory> {
    let mut files = MemoryFiles::new(rt.alloc());
    see_build(&rt, rt.alloc(), &mut files)?;
    see_run(&rt, rt.alloc(), &mut files)
}

// What a long run prints, over an output whose call with that number fails, and its status.
fn printed(alloc: Global, failing: u64, status: &mut u8) -> Result<MemorySink, NoMemory> {
    let mut files = MemoryFiles::new(alloc);
    // a loop that writes 5 to port 1 every four cycles
    files.place("h", b":0500000075900580FB76\n:00000001FF\n")?;
    files.place("m", b"")?;
    let words = split(alloc, "run h m m 4000")?;
    let mut out = MemorySink::new(alloc);
    out.fail(failing)?;
    *status = cerco(alloc, &words, &mut files, &mut out);
    Ok(out)
}

// Beside what a whole run prints, an output that fails at a call got a front of it, of more bytes than these unless it got none.
fn see_front(
    rt: &impl Abort,
    alloc: Global,
    whole: &[u8],
    failing: u64,
    least: usize,
) -> Result<(), NoMemory> {
    let mut status = 0;
    let out = printed(alloc, failing, &mut status)?;
    let front = out.bytes();
    assert_eq!(rt; status, 5, "call {failing}");
    assert_eq!(rt; front.len() > least, failing > 0, "call {failing}");
    assert_eq!(rt; whole.starts_with(front), true, "call {failing}");
    assert_eq!(rt; front.len() < whole.len(), true, "call {failing}");
    Ok(())
}

#[test]
fn faults_of_the_output_are_told(rt: HostRuntime) -> Result<(), NoMemory> {
    let mut status = 0;
    let whole = printed(rt.alloc(), u64::MAX, &mut status)?;
    assert_eq!(rt; status, 0);
    see_front(&rt, rt.alloc(), whole.bytes(), 0, 0)?;
    see_front(&rt, rt.alloc(), whole.bytes(), 1, 4000)
}

#[test]
fn a_missing_file_and_a_failing_output_are_told_once(rt: HostRuntime) -> Result<(), NoMemory> {
    let alloc = rt.alloc();
    let words = split(alloc, "list x")?;
    let mut out = MemorySink::new(alloc);
    out.fail(0)?;
    assert_eq!(rt;
        cerco(alloc, &words, &mut MemoryFiles::new(alloc), &mut out),
        5
    );
    assert_eq!(rt; out.bytes(), b"".as_slice());
    Ok(())
}
