//! Sources whose runs, objects or refusals are known.

use crate::lengths::code_length;
use crate::runs::run;
use cerco_base::{Fault, NameKind, NoMemory, Reason, TypeKind};
use cerco_pipeline::{Compiled, compile};
use std::alloc::Global;
use std::process::Abort;

const QUOTIENT: &str = "void main(void){unsigned char a;unsigned char b;a=P1;b=8;b=b/a;P1=b;}";

const READS_TWO: &str = "void main(void){unsigned char x;x=P1;P1=x;x=P1;P1=x;}";

const ARMS: &str = "void main(void){unsigned char a;a=P1;if(a);else P1=1;}";

const DO_LOOP: &str =
    "void main(void){unsigned char a;unsigned char b;a=P1;b=P1;do{if(a)break;}while(b);}";

const WHILE_BOTH: &str =
    "void main(void){unsigned char a;unsigned char b;a=P1;b=P1;while(a&&b){a=0;P1=b;}}";

// A ring buffer whose last 16 readings are summed.
const RING: &str = "unsigned char ring[32];
unsigned char head;
unsigned char tail;
unsigned char fill;
unsigned int total;
unsigned char last = 255;
unsigned char level = 255;
/* ring buffer */
void put(unsigned char b) { ring[head] = b; head = (head + 1) & 31; fill = fill + 1; }
unsigned char get(void) {
  unsigned char b;
  b = ring[tail]; tail = (tail + 1) & 31; fill = fill - 1;
  return b;
}
void add(unsigned char b) {
  unsigned char old;
  if (fill >= 16) { old = get(); total = total - old; }
  put(b);
  total = total + b;
}
void sample(void) {
  unsigned char b;
  b = P1;
  if (b == last) level = b; // two equal readings
  last = b;
  add(level);
}
void main(void) { while (1) { sample(); P1 = total >> 4; } }
";

// ---- runs

// Sources, scripts, and what is told of their runs, with the cycles before each label and at the end.
#[rattlefmt::skip]
const TIMED: [(&str, &[u8], &str); 2] = [
    ("void main(void){}", b"", "L0 4 end 7"),
    (QUOTIENT, b"\x00", "L0 4 R0 Zero"),
];

// Sources, scripts, and the events of their runs, without cycles; of one that goes on the first ones.
#[rattlefmt::skip]
const RUNS: [(&str, &[u8], &str); 18] = [
    ("void main(void){P1=5;}", b"", "L0 P5 end"),
    // a reading whose value is never used
    ("void main(void){unsigned char x;x=P1;}", b"\x07", "L0 R7 end"),
    (READS_TWO, b"\x09", "L0 R9 P9 R255 P255 end"),
    (ARMS, b"\x01", "L0 R1 L1 end"),
    (ARMS, b"\x00", "L0 R0 L2 P1 end"),
    (DO_LOOP, b"\x01\x00", "L0 R1 R0 L1 L4 end"),
    (DO_LOOP, b"\x00\x00", "L0 R0 R0 L2 L4 end"),
    (DO_LOOP, b"\x00\x01", "L0 R0 R1 L2 L3 L2 L3 L2 L3 "),
    (WHILE_BOTH, b"\x01\x01", "L0 R1 R1 L1 L3 P1 L2 L4 end"),
    (WHILE_BOTH, b"\x01\x00", "L0 R1 R0 L1 L4 end"),
    (WHILE_BOTH, b"\x00\x01", "L0 R0 R1 L2 L4 end"),
    (WHILE_BOTH, b"\x00\x00", "L0 R0 R0 L2 L4 end"),
    // signed and unsigned order
    ("void main(void){signed char a;unsigned char b;a=P1;b=P1;if(a<1)P1=1;if(b<1)P1=2;}", b"\xFF\xFF", "L0 R255 R255 L1 P1 L4 end"),
    ("void main(void){int c;unsigned int d;c=-1;d=0xFFFF;if(c<1)P1=1;if(d<1)P1=2;if(c==d)P1=3;}", b"", "L0 L1 P1 L4 L5 P3 end"),
    ("void main(void){P1=((((((((((((((((((((((((((((((((((((((((((((((((((((((((((((((((1))))))))))))))))))))))))))))))))))))))))))))))))))))))))))))))));}", b"", "L0 P1 end"),
    (QUOTIENT, b"\x00", "L0 R0 Zero"),
    (QUOTIENT, b"\x02", "L0 R2 P4 end"),
    (RING, b"", "L11 L12 L7 R255 L8 L2 L5 L0 L6 L10 L13 P15 L12 "),
];

// What is told without the cycles: each word that isn't a number, and a blank after it.
fn events_of(alloc: Global, told: &str) -> Result<String, NoMemory> {
    let mut events = String::new(alloc);
    for word in told.split_whitespace() {
        if !word.as_bytes().first().unwrap_or(&b'0').is_ascii_digit() {
            events.push_str(word)?;
            events.push_str(" ")?;
        }
    }
    Ok(events)
}

// The events of the run of a text.
fn events(alloc: Global, text: &str, script: &[u8]) -> Result<String, Fault> {
    let told = run(alloc, text.as_bytes(), script)?;
    Ok(events_of(alloc, &told)?)
}

#[test]
fn costs_are_known(rt: HostRuntime) -> Result<(), Fault> {
    for (text, script, wanted) in &TIMED {
        let words = run(rt.alloc(), text.as_bytes(), script)?;
        assert!(rt; words.as_bytes() == wanted.as_bytes(), "{text}: {words}");
    }
    Ok(())
}

#[test]
fn runs_are_known(rt: HostRuntime) -> Result<(), Fault> {
    for (text, script, wanted) in &RUNS {
        let words = events(rt.alloc(), text, script)?;
        assert!(rt;
            words.as_bytes().starts_with(wanted.as_bytes()),
            "{text}: {words}"
        );
    }
    Ok(())
}

// ---- objects

// The code of a program, the addresses of its labels, the costs of the start and of the labels, and how many bytes of data and how many
// cells it has.
fn object_text(alloc: Global, compiled: &Compiled) -> Result<String, Fault> {
    Ok(format!(in alloc;
        "{:?} {:?} {} {:?} {} {}",
        compiled.code(),
        compiled.labels(),
        compiled.start(),
        compiled.costs(),
        compiled.data(),
        compiled.cells()
    )?)
}

fn object_of(alloc: Global, text: &str) -> Result<String, Fault> {
    let compiled = compile(alloc, text.as_bytes())?;
    object_text(alloc, &compiled)
}

#[test]
fn an_empty_program_is_known_to_the_byte(rt: HostRuntime) -> Result<(), Fault> {
    let found = object_of(rt.alloc(), "void main(void){}")?;
    assert!(rt;
        found.as_bytes() == b"[117, 129, 127, 18, 0, 8, 128, 254, 0, 34] [8] 4 [3] 0 0".as_slice(),
        "{found}"
    );
    Ok(())
}

// How many labels, costs and bytes of data a program has.
fn counts(alloc: Global, text: &str) -> Result<(usize, usize, u16), Fault> {
    let compiled = compile(alloc, text.as_bytes())?;
    Ok((
        compiled.labels().len(),
        compiled.costs().len(),
        compiled.data(),
    ))
}

#[test]
fn a_ring_buffer_has_its_labels_and_its_data(rt: HostRuntime) -> Result<(), Fault> {
    assert!(rt; counts(rt.alloc(), RING)? == (15, 15, 39));
    Ok(())
}

// ---- texts of many parts

// A text with a part that is there so many times.
fn repeated(
    alloc: Global,
    before: &str,
    part: &str,
    times: u32,
    after: &str,
) -> Result<String, NoMemory> {
    let mut text = String::from_str(alloc, before)?;
    for _ in 0..times {
        text.push_str(part)?;
    }
    text.push_str(after)?;
    Ok(text)
}

// The events of the run of a text whose code has more bytes than so many; of another one the empty text.
fn events_of_long(alloc: Global, text: &str, script: &[u8], least: usize) -> Result<String, Fault> {
    if code_length(alloc, text.as_bytes())? <= least {
        return Ok(String::new(alloc));
    }
    let told = run(alloc, text.as_bytes(), script)?;
    Ok(events_of(alloc, &told)?)
}

// A loop whose body has many writes, and the events of its run, which turns twice.
fn long_loop(alloc: Global) -> Result<String, NoMemory> {
    let head = "void main(void){unsigned char i;i=0;while(i<2){";
    repeated(alloc, head, "P1=i;", 800, "i=i+1;}}")
}

fn events_of_long_loop(alloc: Global) -> Result<String, NoMemory> {
    let first = repeated(alloc, "L0 L1 ", "P0 ", 800, "L1 ")?;
    repeated(alloc, &first, "P1 ", 800, "L2 end ")
}

// The body is longer than a short jump reaches, and the code is longer than a page.
#[test]
fn a_long_loop_turns(rt: HostRuntime) -> Result<(), Fault> {
    let alloc = rt.alloc();
    let text = long_loop(alloc)?;
    assert!(rt; events_of_long(alloc, &text, b"", 0x800)? == events_of_long_loop(alloc)?);
    Ok(())
}

// By its own bound the code has more bytes than there are.
#[test]
fn a_long_main_runs_to_its_end(rt: HostRuntime) -> Result<(), Fault> {
    let alloc = rt.alloc();
    let text = repeated(alloc, "void main(void){", "P1=1;", 4000, "}")?;
    let wanted = repeated(alloc, "L0 ", "P1 ", 4000, "end ")?;
    assert!(rt; events(alloc, &text, b"")? == wanted);
    Ok(())
}

fn begins_and_ends(events: &str, first: &str, last: &str) -> bool {
    let bytes = events.as_bytes();
    bytes.starts_with(first.as_bytes()) && bytes.ends_with(last.as_bytes())
}

// Sees how the events of a program with more than 32 KiB of code begin and end: between two texts many writes of a variable are done.
fn see_far(
    rt: &impl Abort,
    alloc: Global,
    texts: (&str, &str),
    events: (&str, &str),
) -> Result<(), Fault> {
    let text = repeated(alloc, texts.0, "P1=i;", 4500, texts.1)?;
    let words = events_of_long(alloc, &text, b"\x02", 0x8000)?;
    assert!(rt; begins_and_ends(&words, events.0, events.1), "{}", texts.0);
    Ok(())
}

#[test]
fn a_loop_leads_over_far_code(rt: HostRuntime) -> Result<(), Fault> {
    let front = "void main(void){unsigned char i;i=P1;while(i<3){";
    see_far(
        &rt,
        rt.alloc(),
        (front, "i=i+1;}}"),
        ("L0 R2 L1 P2 ", "P2 L2 end "),
    )
}

#[test]
fn a_branch_leads_over_far_code(rt: HostRuntime) -> Result<(), Fault> {
    let front = "void main(void){unsigned char i;i=P1;if(i&&i<3){";
    see_far(
        &rt,
        rt.alloc(),
        (front, "}else P1=9;if(i)P1=7;}"),
        ("L0 R2 L1 L3 P2 ", "P2 L5 P7 end "),
    )
}

#[test]
fn a_call_leads_over_far_code(rt: HostRuntime) -> Result<(), Fault> {
    let front = "void f(unsigned char i){P1=i;}void main(void){unsigned char i;i=P1;f(i);";
    see_far(
        &rt,
        rt.alloc(),
        (front, "f(i);}"),
        ("L1 R2 L0 P2 L2 P2 ", "P2 L0 P2 L3 end "),
    )
}

// ---- refusals

// The reason for which a text is refused, or none.
fn reason_of(alloc: Global, text: &str) -> Result<Option<Reason>, NoMemory> {
    match compile(alloc, text.as_bytes()) {
        Ok(_) => Ok(None),
        Err(Fault::Refused(reason)) => Ok(Some(reason)),
        Err(Fault::OutOfMemory) => Err(NoMemory),
    }
}

// Texts, and the reason for which each of them is refused.
#[rattlefmt::skip]
const REFUSED: [(&str, Reason); 11] = [
    ("", Reason::Name { at: 0, kind: NameKind::Main }),
    ("void main(void){P1=\u{7f};}", Reason::Byte { at: 19 }),
    ("/*@*/void main(void){}", Reason::Marker { at: 0 }),
    ("void main(void){}/* x", Reason::Token { at: 17 }),
    ("void main(void){P1=65536;}", Reason::Token { at: 19 }),
    ("void main(void){P1=1}", Reason::Syntax { at: 20 }),
    ("void main(void){P1=(((((((((((((((((((((((((((((((((((((((((((((((((((((((((((((((((1)))))))))))))))))))))))))))))))))))))))))))))))))))))))))))))))));}", Reason::Nesting { at: 19 }),
    ("void main(void){int __a;}", Reason::Name { at: 20, kind: NameKind::Reserved }),
    ("void main(void){P1=40000;}", Reason::Typing { at: 19, kind: TypeKind::Long }),
    ("void f(void){f();}void main(void){}", Reason::Recursion { at: 5 }),
    ("unsigned char a[65534];unsigned char b;void main(void){}", Reason::DataFull { total: 65535 }),
];

#[test]
fn texts_are_refused_for_their_reasons(rt: HostRuntime) -> Result<(), NoMemory> {
    for (text, reason) in &REFUSED {
        assert!(rt; reason_of(rt.alloc(), text)? == Some(*reason), "{text}");
    }
    Ok(())
}

#[test]
fn a_text_and_its_data_have_their_limits(rt: HostRuntime) -> Result<(), NoMemory> {
    let alloc = rt.alloc();
    let longest = repeated(alloc, "void main(void){}", " ", 65518, "")?;
    assert!(rt; reason_of(alloc, &longest)? == None);
    let longer = repeated(alloc, &longest, " ", 1, "")?;
    assert!(rt; reason_of(alloc, &longer)? == Some(Reason::TooLong));
    let full = "unsigned char a[65534];void main(void){}";
    assert!(rt; reason_of(alloc, full)? == None);
    Ok(())
}

// A chain of functions each of which calls the one before it, and is called by none but the next; `main` calls the last.
fn chain(alloc: Global, count: u32) -> Result<String, NoMemory> {
    let mut text = String::from_str(alloc, "void f0(void){P1=0;}")?;
    for number in 1..count {
        let line = format!(in alloc; "void f{number}(void){{f{}();}}", number - 1)?;
        text.push_str(&line)?;
    }
    let line = format!(in alloc; "void main(void){{f{}();}}", count.saturating_sub(1))?;
    text.push_str(&line)?;
    Ok(text)
}

#[test]
fn a_call_path_has_sixty_four_functions_at_most(rt: HostRuntime) -> Result<(), Fault> {
    let alloc = rt.alloc();
    let deepest = chain(alloc, 63)?;
    assert!(rt;
        !run(alloc, deepest.as_bytes(), b"")?
            .as_bytes()
            .starts_with(b"object")
    );
    let deeper = chain(alloc, 64)?;
    assert!(rt; reason_of(alloc, &deeper)? == Some(Reason::StackFull { depth: 65 }));
    Ok(())
}

// `main` with so many variables that each keep a reading over a call.
fn kept(alloc: Global, count: u32) -> Result<String, NoMemory> {
    let mut text = String::from_str(alloc, "void f(void){}void main(void){")?;
    for number in 0..count {
        text.push_str(&format!(in alloc; "unsigned char x{number};")?)?;
    }
    for number in 0..count {
        text.push_str(&format!(in alloc; "x{number}=P1;")?)?;
    }
    text.push_str("f();")?;
    for number in 0..count {
        text.push_str(&format!(in alloc; "P1=x{number};")?)?;
    }
    text.push_str("}")?;
    Ok(text)
}

// One cell for each variable, and few besides.
#[test]
fn too_many_variables_are_too_many_cells(rt: HostRuntime) -> Result<(), NoMemory> {
    let alloc = rt.alloc();
    let reason = reason_of(alloc, &kept(alloc, 113)?)?;
    assert!(rt; matches!(reason, Some(Reason::CellsFull { need }) if 113 <= need && need <= 125));
    assert!(rt; reason_of(alloc, &kept(alloc, 100)?)? == None);
    Ok(())
}

#[test]
fn too_many_tests_are_too_much_code(rt: HostRuntime) -> Result<(), NoMemory> {
    let alloc = rt.alloc();
    let text = repeated(
        alloc,
        "void main(void){unsigned char x;x=P1;",
        "if(x);",
        10000,
        "}",
    )?;
    assert!(rt; matches!(reason_of(alloc, &text)?, Some(Reason::CodeFull { len }) if len > 65536));
    Ok(())
}
