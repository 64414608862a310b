//! What sources mean, beside the runs of their objects.

use crate::events::RUNS;
use crate::seeing::{EMPTY, run_words, see, split};
use cerco_base::{MemoryFiles, MemorySink, NoMemory};
use cerco_command::cerco;
use std::alloc::Global;
use std::process::Abort;
use std::str;

// The longest file that isn't a source, in bytes.
const LONGEST: usize = 16_777_216;

const QUOTIENT: &[u8] = b"void main(void){unsigned char a;unsigned char b;a=P1;b=8;b=b/a;P1=b;}";

// Sources, port scripts, how many labels are passed at most, the status, and what is printed.
#[rattlefmt::skip]
const ROWS: [(&[u8], &[u8], u32, u8, &str); 10] = [
    (EMPTY, b"", 10, 0, "L0 4\nend 7\n"),
    (EMPTY, b"", 1, 0, "L0 4\nend 7\n"),
    (EMPTY, b"", 0, 0, "stop 4\n"),
    (b"void main(void){P1=5;}", b"", 1, 0, "L0 4\nP1 5\nend 13\n"),
    (QUOTIENT, b"\x00", 9, 0, "L0 4\nR1 0\nfault zero\n"),
    (b"void main(void){unsigned char a[2];P1=a[0];}", b"", 9, 0, "L0 4\nfault unset\n"),
    (b"void main(void){unsigned char*p;*p=1;}", b"", 9, 0, "L0 4\nfault outside\n"),
    (b"", b"", 9, 3, "refused 7 name main at 0\n"),
    (b"void f(void){f();}void main(void){}", b"", 9, 3, "refused 9 recursion at 5\n"),
    (b"void main(void){P1=40000;}", b"", 9, 3, "refused 8 type long at 19\n"),
];

#[test]
fn meanings_are_told(rt: HostRuntime) -> Result<(), NoMemory> {
    let alloc = rt.alloc();
    let mut files = MemoryFiles::new(alloc);
    for (source, script, labels, status, printed) in &ROWS {
        files.place("a", source)?;
        files.place("s", script)?;
        let words = format!(in alloc; "meaning a s {labels}")?;
        see(&rt, alloc, &mut files, &words, *status, printed)?;
    }
    Ok(())
}

// The lines of a run as those of a meaning: without the cycles at the ports, and without the line of a stop.
fn as_meaning(alloc: Global, printed: &[u8]) -> Result<String, NoMemory> {
    let mut text = String::new(alloc);
    for line in str::from_utf8(printed).unwrap_or("").lines() {
        if line.starts_with("stop") {
            return Ok(text);
        }
        let is_at_port = line.starts_with('R') || line.starts_with('P');
        let (event, _) = line.rsplit_once(' ').unwrap_or((line, ""));
        text.push_str(if is_at_port { event } else { line })?;
        text.push_str("\n")?;
    }
    Ok(text)
}

// What a source means on a script, for so many labels as its run passes, and its run in the lines of a meaning.
fn meaning_and_run(
    rt: &impl Abort,
    alloc: Global,
    source: &str,
    script: &[u8],
) -> Result<(MemorySink, String), NoMemory> {
    let mut files = MemoryFiles::new(alloc);
    files.place("a", source.as_bytes())?;
    files.place("s", script)?;
    see(rt, alloc, &mut files, "build a h m n", 0, "")?;
    let (ran, run) = run_words(alloc, &mut files, "run h m s 100000")?;
    assert_eq!(rt; ran, 0, "{source}");
    let wanted = as_meaning(alloc, run.bytes())?;
    let labels = wanted.lines().filter(|line| line.starts_with('L')).count();
    let words = format!(in alloc; "meaning a s {labels}")?;
    let (told, meaning) = run_words(alloc, &mut files, &words)?;
    assert_eq!(rt; told, 0, "{source}");
    Ok((meaning, wanted))
}

#[test]
fn runs_have_the_events_and_costs_of_meanings(rt: HostRuntime) -> Result<(), NoMemory> {
    for (source, script, events) in &RUNS {
        let (meaning, wanted) = meaning_and_run(&rt, rt.alloc(), source, script)?;
        let found = str::from_utf8(meaning.bytes()).unwrap_or("");
        assert_eq!(rt;
            found.starts_with(wanted.as_str()),
            true,
            "{source}: {found}"
        );
        // the run has ended exactly if the meaning has
        let is_whole = found.len() == wanted.len();
        assert_eq!(rt; is_whole, events.ends_with("end\n"), "{source}: {found}");
    }
    Ok(())
}

#[test]
fn missing_and_long_files_are_named(rt: HostRuntime) -> Result<(), NoMemory> {
    let alloc = rt.alloc();
    let mut files = MemoryFiles::new(alloc);
    see(&rt, alloc, &mut files, "meaning a s 9", 1, "no file a\n")?;
    files.place("a", b"no source")?;
    see(&rt, alloc, &mut files, "meaning a s 9", 1, "no file s\n")?;
    files.place("s", &vec![in alloc; b'0'; LONGEST + 1]?)?;
    see(&rt, alloc, &mut files, "meaning a s 9", 6, "bad file s\n")
}

#[test]
fn failing_calls_are_told(rt: HostRuntime) -> Result<(), NoMemory> {
    let alloc = rt.alloc();
    let mut files = MemoryFiles::new(alloc);
    files.place("a", EMPTY)?;
    files.place("s", b"")?;
    let mut out = MemorySink::new(alloc);
    out.fail(0)?;
    let words = split(alloc, "meaning a s 9")?;
    assert_eq!(rt; cerco(alloc, &words, &mut files, &mut out), 5);
    assert_eq!(rt; out.bytes(), b"".as_slice());
    // the calls that read the source and the script were made; the next one is at the source
    files.fail(3)?;
    see(&rt, alloc, &mut files, "meaning a s 9", 4, "file fault a\n")
}
