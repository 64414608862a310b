//! Texts that are cut off, lines that are no records, calls of the outside that fail, one after another, and calls that move few bytes.
ghost use Rattle.std.specs.Prelude.{◌≤◌};

use crate::events::RING;
use crate::seeing::{EMPTY_HEX, MAP, WRITE_HEX, run_words, see, see_file, see_no_file, split};
use cerco_base::{MemoryFiles, MemorySink, NoMemory};
use cerco_command::cerco;
use std::alloc::Global;
use std::process::Abort;

const ANNOTATED: &[u8] = b"/*@*/unsigned long __cost=4;/*@*/void main(void){/*@*/__cost+=3;/*@*/}";

// No command makes more calls of files or of the output for the sources and objects here.
const MOST_CALLS: u64 = 1000;

// Lines before the line of the end, and what is said of them.
#[rattlefmt::skip]
const LINES: [(&str, &str); 10] = [
    ("x\n", "bad hex 1 form\n"),
    ("\n", "bad hex 1 form\n"),
    (":00000001FFF\n", "bad hex 1 form\n"),
    (":020000040000F9\n", "bad hex 1 sum\n"),
    (":00000005FB\n", "bad hex 1 type\n"),
    (":0100000400FB\n", "bad hex 1 upper\n"),
    (":01000001AA54\n", "bad hex 1 end\n"),
    (":02FFFF00000000\n", "bad hex 1 range\n"),
    (":0100000001FE\n:0100000001FE\n", "bad hex 2 twice\n"),
    (":00000001FF\n", "bad hex 2 after\n"),
];

// The files of an object, in memory.
fn object(alloc: Global, hex: &[u8]) -> Result<MemoryFiles, NoMemory> {
    let mut files = MemoryFiles::new(alloc);
    files.place("h", hex)?;
    files.place("m", MAP)?;
    files.place("s", b"")?;
    Ok(files)
}

#[test]
fn lines_that_are_no_records_are_named(rt: HostRuntime) -> Result<(), NoMemory> {
    let alloc = rt.alloc();
    for (lines, printed) in &LINES {
        let mut hex = String::from_str(alloc, lines)?;
        hex.push_str(":00000001FF\n")?;
        let mut files = object(alloc, hex.as_bytes())?;
        see(&rt, alloc, &mut files, "run h m s 100", 6, printed)?;
    }
    Ok(())
}

// From and up to which number of bytes what is said of the front of an object's text.
#[rattlefmt::skip]
const FRONTS: [(usize, usize, u8, &str); 5] = [
    (0, 0, 6, "bad hex 1 noend\n"),
    (1, 30, 6, "bad hex 1 form\n"),
    (31, 32, 6, "bad hex 2 noend\n"),
    (33, 42, 6, "bad hex 2 form\n"),
    (43, 44, 0, "L0 4\nend 7\n"),
];

// Sees what is said of the front of an object's text.
fn see_front(rt: &impl Abort, alloc: Global, front: &[u8]) -> Result<(), NoMemory> {
    let mut files = object(alloc, front)?;
    for (from, to, status, printed) in &FRONTS {
        if *from <= front.len() && front.len() <= *to {
            see(rt, alloc, &mut files, "run h m s 100", *status, printed)?;
        }
    }
    Ok(())
}

#[test]
fn fronts_of_an_object_are_no_object(rt: HostRuntime) -> Result<(), NoMemory> {
    let alloc = rt.alloc();
    let mut front = Vec::new(alloc);
    for byte in EMPTY_HEX {
        see_front(&rt, alloc, &front)?;
        front.push(*byte)?;
    }
    assert_eq!(rt; front.len(), 44);
    see_front(&rt, alloc, &front)
}

// Sees that a source is refused, and that nothing is created for it.
fn see_refused_whole(rt: &impl Abort, alloc: Global, source: &[u8]) -> Result<(), NoMemory> {
    let mut files = MemoryFiles::new(alloc);
    files.place("a", source)?;
    let (status, _) = run_words(alloc, &mut files, "build a h m n")?;
    assert_eq!(rt; status, 3, "{} bytes", source.len());
    see_no_file(rt, &files, "h");
    see_no_file(rt, &files, "m");
    see_no_file(rt, &files, "n");
    Ok(())
}

#[test]
fn fronts_of_a_source_are_refused(rt: HostRuntime) -> Result<(), NoMemory> {
    let alloc = rt.alloc();
    let mut front = Vec::new(alloc);
    for byte in RING.trim_end().as_bytes() {
        see_refused_whole(&rt, alloc, &front)?;
        front.push(*byte)?;
    }
    assert_eq!(rt; front.last(), Some(&b'}'));
    Ok(())
}

// Sees that outputs were written in their order: each is a front of its text, and none is there before the one in front of it is whole.
fn see_in_order(rt: &impl Abort, files: &MemoryFiles, whole: &MemoryFiles) {
    let mut may_be_there = true;
    for name in ["h", "m", "n"] {
        let text = whole.bytes(name).unwrap_or(b"");
        match files.bytes(name) {
            None => may_be_there = false,
            Some(front) => {
                assert_eq!(rt; may_be_there && text.starts_with(front), true, "{name}");
                may_be_there = front.len() == text.len();
            }
        }
    }
}

// Whether a line says that a call failed for one of the files that the words name.
fn names_a_file(line: &[u8], words: &[String]) -> bool {
    let text = str::from_utf8(line).unwrap_or("");
    let name = text.strip_prefix("file fault ").unwrap_or("").trim_end();
    for word in words {
        if word.as_str() == name {
            return true;
        }
    }
    false
}

// Runs words over files whose call with this number fails: whether there was such a call. If there was, the run tells its file.
fn see_fault(
    rt: &impl Abort,
    alloc: Global,
    files: &mut MemoryFiles,
    words: &str,
    failing: u64,
) -> Result<bool, NoMemory> {
    files.fail(failing)?;
    let (status, out) = run_words(alloc, files, words)?;
    if status == 0 {
        return Ok(false);
    }
    assert_eq!(rt; status, 4, "{words}, call {failing}");
    let is_named = names_a_file(out.bytes(), &split(alloc, words)?);
    assert_eq!(rt; is_named, true, "{words}, call {failing}");
    Ok(true)
}

#[test]
fn each_failing_call_of_a_build_is_told(rt: HostRuntime) -> Result<(), NoMemory> {
    let alloc = rt.alloc();
    let mut whole = MemoryFiles::new(alloc);
    whole.place("a", RING.as_bytes())?;
    see(&rt, alloc, &mut whole, "build a h m n", 0, "")?;
    let mut told = 0;
    for failing in 0..MOST_CALLS {
        let mut files = MemoryFiles::new(alloc);
        files.place("a", RING.as_bytes())?;
        if !see_fault(&rt, alloc, &mut files, "build a h m n", failing)? {
            break;
        }
        see_in_order(&rt, &files, &whole);
        told = failing + 1;
    }
    // the source is read by two calls, and each output made by two
    assert_eq!(rt; told, 8);
    Ok(())
}

// The same of a command that reads an object or an annotated text. How many calls of the files it makes.
fn see_faults(rt: &impl Abort, alloc: Global, words: &str) -> Result<u64, NoMemory> {
    for failing in 0..MOST_CALLS {
        let mut files = object(alloc, WRITE_HEX)?;
        files.place("n", ANNOTATED)?;
        if !see_fault(rt, alloc, &mut files, words, failing)? {
            return Ok(failing);
        }
    }
    Ok(MOST_CALLS)
}

#[test]
fn each_failing_call_of_the_files_is_told(rt: HostRuntime) -> Result<(), NoMemory> {
    let alloc = rt.alloc();
    // each file is read by two calls, of which the second meets its end
    assert_eq!(rt; see_faults(&rt, alloc, "run h m s 100")?, 5);
    assert_eq!(rt; see_faults(&rt, alloc, "list h")?, 2);
    assert_eq!(rt; see_faults(&rt, alloc, "costs h m")?, 4);
    assert_eq!(rt; see_faults(&rt, alloc, "erase n")?, 2);
    Ok(())
}

// Runs words over an output whose call with this number fails: whether there was such a call. If there was, the status is 5.
fn see_unput(rt: &impl Abort, alloc: Global, words: &str, failing: u64) -> Result<bool, NoMemory> {
    let mut files = object(alloc, WRITE_HEX)?;
    files.place("n", ANNOTATED)?;
    let list = split(alloc, words)?;
    let mut out = MemorySink::new(alloc);
    out.fail(failing)?;
    let status = cerco(alloc, &list, &mut files, &mut out);
    let is_told = status == 0 || status == 5;
    assert_eq!(rt; is_told, true, "{words}, call {failing}");
    Ok(status == 5)
}

#[test]
fn each_failing_call_of_the_output_is_told(rt: HostRuntime) -> Result<(), NoMemory> {
    let alloc = rt.alloc();
    for words in ["run h m s 100", "list h", "costs h m", "erase n"] {
        let mut told = 0;
        for failing in 0..MOST_CALLS {
            if !see_unput(&rt, alloc, words, failing)? {
                break;
            }
            told = failing + 1;
        }
        assert_eq!(rt; 1 <= told && told < MOST_CALLS, true, "{words}");
    }
    Ok(())
}

// Runs words over files and an output whose calls move so many bytes at most.
fn in_pieces(
    alloc: Global,
    words: &str,
    most: usize,
) -> Result<(u8, MemoryFiles, MemorySink), NoMemory>
    requires { 1 ≤ most }
{
    let mut files = object(alloc, WRITE_HEX)?;
    files.place("a", RING.as_bytes())?;
    files.place("n", ANNOTATED)?;
    files.piece(most);
    let mut out = MemorySink::new(alloc);
    out.piece(most);
    let list = split(alloc, words)?;
    let status = cerco(alloc, &list, &mut files, &mut out);
    Ok((status, files, out))
}

// Sees that words end well with calls that move so many bytes at most, and print and write what they do with calls that move all.
fn see_pieces(rt: &impl Abort, alloc: Global, words: &str, most: usize) -> Result<(), NoMemory>
    requires { 1 ≤ most }
{
    let (_, whole_files, whole_out) = in_pieces(alloc, words, usize::MAX)?;
    let (status, files, out) = in_pieces(alloc, words, most)?;
    assert_eq!(rt; status, 0, "{words}, {most} bytes a call");
    assert_eq!(rt;
        out.bytes(),
        whole_out.bytes(),
        "{words}, {most} bytes a call"
    );
    for name in ["h", "m", "n"] {
        let text = whole_files.bytes(name).unwrap_or(b"no such file");
        see_file(rt, &files, name, text);
    }
    Ok(())
}

#[test]
fn short_calls_make_the_same_outputs(rt: HostRuntime) -> Result<(), NoMemory> {
    let alloc = rt.alloc();
    let commands = [
        "build a h m n",
        "run h m s 100",
        "list h",
        "costs h m",
        "erase n",
        "meaning a s 5",
    ];
    for words in commands {
        see_pieces(&rt, alloc, words, 1)?;
        see_pieces(&rt, alloc, words, 3)?;
    }
    Ok(())
}
