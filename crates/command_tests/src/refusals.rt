//! Sources that are refused.

use crate::seeing::{run_words, see, see_no_file};
use cerco_base::{MemoryFiles, NoMemory};
use std::alloc::Global;
use std::process::Abort;

/// Builds from a text that is refused with a line.
pub fn see_refused(
    rt: &impl Abort,
    alloc: Global,
    text: &[u8],
    line: &str,
) -> Result<(), NoMemory> {
    let mut files = MemoryFiles::new(alloc);
    files.place("a", text)?;
    see(rt, alloc, &mut files, "build a h m n", 3, line)?;
    see_no_file(rt, &files, "h");
    Ok(())
}

// `main` with a number in some parentheses that is written to port 1.
fn nested(alloc: Global, count: usize) -> Result<String, NoMemory> {
    let mut text = String::from_str(alloc, "void main(void){P1=")?;
    for _ in 0..count {
        text.push_str("(")?;
    }
    text.push_str("1")?;
    for _ in 0..count {
        text.push_str(")")?;
    }
    text.push_str(";}")?;
    Ok(text)
}

#[test]
fn sixty_four_parentheses_are_built(rt: HostRuntime) -> Result<(), NoMemory> {
    let alloc = rt.alloc();
    let mut files = MemoryFiles::new(alloc);
    files.place("a", nested(alloc, 64)?.as_bytes())?;
    see(&rt, alloc, &mut files, "build a h m n", 0, "")?;
    see_refused(
        &rt,
        alloc,
        nested(alloc, 65)?.as_bytes(),
        "refused 6 nesting at 19\n",
    )
}

// Texts, and the line with which they are refused.
#[rattlefmt::skip]
const REFUSED: [(&str, &str); 17] = [
    ("void main(void){P1=\u{7f};}", "refused 2 byte at 19\n"),
    ("/*@*/void main(void){}", "refused 3 marker at 0\n"),
    ("void main(void){}/* x", "refused 4 token at 17\n"),
    ("void main(void){P1=65536;}", "refused 4 token at 19\n"),
    ("void main(void){P1=1}", "refused 5 syntax at 20\n"),
    ("void main(void){P1=+5;}", "refused 5 syntax at 19\n"),
    ("void main(void){", "refused 5 syntax at 16\n"),
    ("void main(void){}}", "refused 5 syntax at 17\n"),
    ("", "refused 7 name main at 0\n"),
    ("void f(void){}", "refused 7 name main at 14\n"),
    ("void main(void){break;x=1;}", "refused 7 name unknown at 22\n"),
    ("void f(void){f();}void main(void){P1=1<<16;}", "refused 8 type shift at 38\n"),
    ("char t[65534];char u;void f(void){f();}void main(void){}", "refused 9 recursion at 26\n"),
    ("char t[65534];char u;void main(void){}", "refused 11 data 65535\n"),
    ("void main(void){P1=40000;}", "refused 8 type long at 19\n"),
    ("void main(void){int __a;}", "refused 7 name reserved at 20\n"),
    ("void f(void){f();}void main(void){}", "refused 9 recursion at 5\n"),
];

#[test]
fn other_sources_are_refused(rt: HostRuntime) -> Result<(), NoMemory> {
    for (text, line) in &REFUSED {
        see_refused(&rt, rt.alloc(), text.as_bytes(), line)?;
    }
    Ok(())
}

// A chain of functions each of which calls the one before it, and is called by none but the next; `main` calls the last.
fn chain(alloc: Global, count: u32) -> Result<String, NoMemory> {
    let mut text = String::from_str(alloc, "void f0(void){}")?;
    for number in 1..count {
        let line = format!(in alloc; "void f{number}(void){{f{}();}}", number - 1)?;
        text.push_str(&line)?;
    }
    let line = format!(in alloc; "void main(void){{f{}();}}", count.saturating_sub(1))?;
    text.push_str(&line)?;
    Ok(text)
}

#[test]
fn sixty_four_calls_are_open_at_most(rt: HostRuntime) -> Result<(), NoMemory> {
    let alloc = rt.alloc();
    let mut files = MemoryFiles::new(alloc);
    files.place("a", chain(alloc, 63)?.as_bytes())?;
    see(&rt, alloc, &mut files, "build a h m n", 0, "")?;
    see_refused(
        &rt,
        alloc,
        chain(alloc, 64)?.as_bytes(),
        "refused 10 stack 65\n",
    )
}

// `main` with so many variables that each keep a reading over a call.
fn kept(alloc: Global, count: u32) -> Result<String, NoMemory> {
    let mut text = String::from_str(alloc, "void f(void){}void main(void){")?;
    for number in 0..count {
        text.push_str(&format!(in alloc; "unsigned char x{number};")?)?;
    }
    for number in 0..count {
        text.push_str(&format!(in alloc; "x{number}=P1;")?)?;
    }
    text.push_str("f();")?;
    for number in 0..count {
        text.push_str(&format!(in alloc; "P1=x{number};")?)?;
    }
    text.push_str("}")?;
    Ok(text)
}

// More cells are needed than there are, whatever else the program keeps in cells.
#[test]
fn the_cells_do_not_suffice(rt: HostRuntime) -> Result<(), NoMemory> {
    let alloc = rt.alloc();
    let mut files = MemoryFiles::new(alloc);
    files.place("a", kept(alloc, 113)?.as_bytes())?;
    let (status, line) = run_words(alloc, &mut files, "build a h m n")?;
    assert_eq!(rt; status, 3);
    assert_eq!(rt; line.bytes().starts_with(b"refused 12 cells "), true);
    see_no_file(&rt, &files, "h");
    Ok(())
}

#[test]
fn the_code_does_not_fit(rt: HostRuntime) -> Result<(), NoMemory> {
    let alloc = rt.alloc();
    let mut text = Vec::from_slice(alloc, b"void main(void){unsigned char x;x=P1;")?;
    for _ in 0..10000 {
        text.extend_from_slice(b"if(x);")?;
    }
    text.push(b'}')?;
    let mut files = MemoryFiles::new(alloc);
    files.place("a", text.as_slice())?;
    let (status, line) = run_words(alloc, &mut files, "build a h m n")?;
    assert_eq!(rt; status, 3);
    assert_eq!(rt; line.bytes().starts_with(b"refused 13 code "), true);
    see_no_file(&rt, &files, "h");
    Ok(())
}
