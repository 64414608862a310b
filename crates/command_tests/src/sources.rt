//! Sources that are built, and what is written of them.

use crate::refusals::see_refused;
use crate::seeing::{EMPTY, EMPTY_HEX, MAP, WRITE_HEX, see, see_file, split};
use cerco_base::{MemoryFiles, NoMemory, SoundFiles, SoundSink};
use cerco_command::cerco;
use std::alloc::Global;
use std::process::Abort;

const EMPTY_ANNOTATED: &[u8] =
    b"/*@*/unsigned long __cost=4;/*@*/void main(void){/*@*/__cost+=3;/*@*/}";

// Builds the empty program over files and an output that never fail.
fn build_empty(rt: &impl Abort, alloc: Global, files: &mut SoundFiles) -> Result<(), NoMemory> {
    files.place("a.c", EMPTY)?;
    let mut out = SoundSink::new(alloc);
    let words = split(alloc, "build a.c a.hex a.map a.ann")?;
    assert_eq!(rt; cerco(alloc, &words, files, &mut out), 0);
    assert_eq!(rt; out.bytes(), b"".as_slice());
    Ok(())
}

fn see_empty(rt: &impl Abort, files: &SoundFiles) {
    assert_eq!(rt; files.bytes("a.hex").unwrap_or(b""), EMPTY_HEX);
    assert_eq!(rt; files.bytes("a.map").unwrap_or(b""), MAP);
    assert_eq!(rt; files.bytes("a.ann").unwrap_or(b""), EMPTY_ANNOTATED);
    assert_eq!(rt; files.bytes("a.c").unwrap_or(b""), EMPTY);
}

// Runs and lists the object of the empty program.
fn run_empty(rt: &impl Abort, alloc: Global, files: &mut SoundFiles) -> Result<(), NoMemory> {
    files.place("s", b"")?;
    see(
        rt,
        alloc,
        files,
        "run a.hex a.map s 100",
        0,
        "L0 4\nend 7\n",
    )?;
    see(
        rt,
        alloc,
        files,
        "list a.hex",
        0,
        "0000 75817F MOV 81H,#7FH\n0003 120008 LCALL 0008H\n0006 80FE SJMP 0006H\n0008 00 NOP\n0009 22 RET\n",
    )
}

#[test]
fn a_program_is_built_run_and_listed(rt: HostRuntime) -> Result<(), NoMemory> {
    let mut files = SoundFiles::new(rt.alloc());
    build_empty(&rt, rt.alloc(), &mut files)?;
    see_empty(&rt, &files);
    run_empty(&rt, rt.alloc(), &mut files)
}

// Limits of cycles for the run of an object that writes 5 to port 1, and what it prints.
#[rattlefmt::skip]
const LIMITS: [(&str, &str); 5] = [
    ("run h m s 100", "L0 4\nP1 5 5\nend 9\n"),
    ("run h m s 5", "L0 4\nstop 5\n"),
    ("run h m s 7", "L0 4\nP1 5 5\nstop 7\n"),
    ("run h m s 9", "L0 4\nP1 5 5\nend 9\n"),
    ("run h m s 0", "stop 0\n"),
];

#[test]
fn a_run_has_a_limit(rt: HostRuntime) -> Result<(), NoMemory> {
    let alloc = rt.alloc();
    let mut files = MemoryFiles::new(alloc);
    files.place("h", WRITE_HEX)?;
    files.place("m", MAP)?;
    files.place("s", b"")?;
    for (words, printed) in &LIMITS {
        see(&rt, alloc, &mut files, words, 0, printed)?;
    }
    Ok(())
}

// The text without its decimal digits.
fn without_digits(alloc: Global, text: &[u8]) -> Result<Vec<u8>, NoMemory> {
    let mut rest = Vec::new(alloc);
    for byte in text {
        if !byte.is_ascii_digit() {
            rest.push(*byte)?;
        }
    }
    Ok(rest)
}

// Builds a source, and sees its annotated text but for the digits.
fn see_annotated(
    rt: &impl Abort,
    alloc: Global,
    source: &[u8],
    wanted: &[u8],
) -> Result<(), NoMemory> {
    let mut files = MemoryFiles::new(alloc);
    files.place("a", source)?;
    see(rt, alloc, &mut files, "build a h m n", 0, "")?;
    let found = without_digits(alloc, files.bytes("n").unwrap_or(b""))?;
    assert_eq!(rt; found.as_slice(), wanted);
    Ok(())
}

#[test]
fn arms_and_loops_are_annotated(rt: HostRuntime) -> Result<(), NoMemory> {
    see_annotated(
        &rt,
        rt.alloc(),
        b"void main(void){unsigned char a;a=P1;if(a);else P1=1;}",
        b"/*@*/unsigned long __cost=;/*@*/void main(void){/*@*/__cost+=;/*@*/unsigned char a;a=P;if(a)/*@*/{__cost+=;/*@*/;/*@*/}/*@*/else /*@*/{__cost+=;/*@*/P=;/*@*/}/*@*/}",
    )?;
    see_annotated(
        &rt,
        rt.alloc(),
        b"void main(void){unsigned char b;b=P1;while(b)b=P1;}",
        b"/*@*/unsigned long __cost=;/*@*/void main(void){/*@*/__cost+=;/*@*/unsigned char b;b=P;while(b)/*@*/{__cost+=;/*@*/b=P;/*@*/}__cost+=;/*@*/}",
    )
}

#[test]
fn blanks_comments_and_parentheses_are_kept(rt: HostRuntime) -> Result<(), NoMemory> {
    see_annotated(
        &rt,
        rt.alloc(),
        b" void main ( void ) { /* a */ P1 = ((5)) ; }\n",
        b"/*@*/unsigned long __cost=;/*@*/ void main ( void ) {/*@*/__cost+=;/*@*/ /* a */ P = (()) ; }\n",
    )
}

#[test]
fn the_longest_source_is_built(rt: HostRuntime) -> Result<(), NoMemory> {
    let alloc = rt.alloc();
    let mut text = Vec::from_slice(alloc, EMPTY)?;
    for _ in 0..65518 {
        text.push(b' ')?;
    }
    let mut files = MemoryFiles::new(alloc);
    files.place("a", text.as_slice())?;
    see(&rt, alloc, &mut files, "build a h m n", 0, "")?;
    see_file(&rt, &files, "h", EMPTY_HEX);
    text.push(b' ')?;
    see_refused(&rt, alloc, text.as_slice(), "refused 1 long\n")
}

// A long source whose code is nearly as long as code memory.
#[test]
fn a_long_main_is_built(rt: HostRuntime) -> Result<(), NoMemory> {
    let alloc = rt.alloc();
    let mut text = Vec::from_slice(alloc, b"void main(void){")?;
    for _ in 0..4000 {
        text.extend_from_slice(b"P1=1;")?;
    }
    text.push(b'}')?;
    let mut files = MemoryFiles::new(alloc);
    files.place("a", text.as_slice())?;
    see(&rt, alloc, &mut files, "build a h m n", 0, "")
}

#[test]
fn the_most_data_are_built(rt: HostRuntime) -> Result<(), NoMemory> {
    let mut files = MemoryFiles::new(rt.alloc());
    files.place("a", b"unsigned char a[65534];void main(void){}")?;
    see(&rt, rt.alloc(), &mut files, "build a h m n", 0, "")
}
