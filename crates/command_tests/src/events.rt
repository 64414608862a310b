//! What built programs do: the events of their runs.

use crate::seeing::{run_words, see};
use cerco_base::{MemoryFiles, NoMemory};
use std::alloc::Global;
use std::process::Abort;
use std::str;

/// Sources, port scripts, and the events of the runs, each without its cycles; one that goes on has the first of them.
#[rattlefmt::skip]
pub const RUNS: [(&str, &[u8], &str); 19] = [
    // a reading whose value is never used
    ("void main(void){unsigned char x;x=P1;}", b"\x07", "L0, R1 7, end\n"),
    ("void main(void){unsigned char x;x=P1;P1=x;x=P1;P1=x;}", b"\x09", "L0, R1 9, P1 9, R1 255, P1 255, end\n"),
    ("void main(void){unsigned char a;a=P1;if(a);else P1=1;}", b"\x01", "L0, R1 1, L1, end\n"),
    ("void main(void){unsigned char a;a=P1;if(a);else P1=1;}", b"\x00", "L0, R1 0, L2, P1 1, end\n"),
    (DO_LOOP, b"\x01\x00", "L0, R1 1, R1 0, L1, L4, end\n"),
    (DO_LOOP, b"\x00\x00", "L0, R1 0, R1 0, L2, L4, end\n"),
    (DO_LOOP, b"\x00\x01", "L0, R1 0, R1 1, L2, L3, L2, L3, L2, L3, "),
    (WHILE_BOTH, b"\x01\x01", "L0, R1 1, R1 1, L1, L3, P1 1, L2, L4, end\n"),
    (WHILE_BOTH, b"\x01\x00", "L0, R1 1, R1 0, L1, L4, end\n"),
    (WHILE_BOTH, b"\x00\x01", "L0, R1 0, R1 1, L2, L4, end\n"),
    (WHILE_BOTH, b"\x00\x00", "L0, R1 0, R1 0, L2, L4, end\n"),
    // signed and unsigned comparison
    ("void main(void){signed char a;unsigned char b;a=P1;b=P1;if(a<1)P1=1;if(b<1)P1=2;}", b"\xff\xff", "L0, R1 255, R1 255, L1, P1 1, L4, end\n"),
    ("void main(void){int c;unsigned int d;c=-1;d=0xFFFF;if(c<1)P1=1;if(d<1)P1=2;if(c==d)P1=3;}", b"", "L0, L1, P1 1, L4, L5, P1 3, end\n"),
    ("void main(void){unsigned char a;unsigned char b;a=P1;b=8;b=b/a;P1=b;}", b"\x02", "L0, R1 2, P1 4, end\n"),
    // the wraps of one byte and of two
    ("void main(void){unsigned char a;int b;a=255;a=a+1;P1=a;b=32767;b=b+1;if(b<0)P1=7;}", b"", "L0, P1 0, L1, P1 7, end\n"),
    // an argument, a result and the label after the call
    ("int f(int a,unsigned char b){return a+b;}void main(void){int x;x=f(255,2);P1=x;P1=x>>8;}", b"", "L1, L0, L2, P1 1, P1 1, end\n"),
    // a local kept over a call, and a global that the callee changes
    ("int g;void f(void){g=g+1;}void main(void){int x;x=40;g=1;f();f();P1=x+g;}", b"", "L1, L0, L2, L0, L3, P1 43, end\n"),
    // an array, a struct and pointers to them
    ("struct s{char a;int b;};struct s t;char u[3]={1,2,3};void main(void){struct s*p;char*q;p=&t;q=u;p->b=*(q+2);u[1]=t.b;P1=u[1]+q[0];}", b"", "L0, P1 4, end\n"),
    (RING, b"", "L11, L12, L7, R1 255, L8, L2, L5, L0, L6, L10, L13, P1 15, L12, "),
];

const DO_LOOP: &str =
    "void main(void){unsigned char a;unsigned char b;a=P1;b=P1;do{if(a)break;}while(b);}";

const WHILE_BOTH: &str =
    "void main(void){unsigned char a;unsigned char b;a=P1;b=P1;while(a&&b){a=0;P1=b;}}";

/// A ring buffer whose last 16 readings are summed.
pub const RING: &str = "unsigned char ring[32];
unsigned char head;
unsigned char tail;
unsigned char fill;
unsigned int total;
unsigned char last = 255;
unsigned char level = 255;
/* ring buffer */
void put(unsigned char b) { ring[head] = b; head = (head + 1) & 31; fill = fill + 1; }
unsigned char get(void) {
  unsigned char b;
  b = ring[tail]; tail = (tail + 1) & 31; fill = fill - 1;
  return b;
}
void add(unsigned char b) {
  unsigned char old;
  if (fill >= 16) { old = get(); total = total - old; }
  put(b);
  total = total + b;
}
void sample(void) {
  unsigned char b;
  b = P1;
  if (b == last) level = b; // two equal readings
  last = b;
  add(level);
}
void main(void) { while (1) { sample(); P1 = total >> 4; } }
";

// The events that lines name, without their cycles, in one line; the run's end has a line's end after it.
fn events(alloc: Global, printed: &[u8]) -> Result<String, NoMemory> {
    let mut text = String::new(alloc);
    for line in str::from_utf8(printed).unwrap_or("").lines() {
        let (event, _) = line.rsplit_once(' ').unwrap_or((line, ""));
        text.push_str(event)?;
        text.push_str(if event == "end" { "\n" } else { ", " })?;
    }
    Ok(text)
}

// The events of the run of a source, with so many cycles at most.
fn run_source(
    rt: &impl Abort,
    alloc: Global,
    source: &[u8],
    script: &[u8],
) -> Result<String, NoMemory> {
    let mut files = MemoryFiles::new(alloc);
    files.place("a", source)?;
    files.place("s", script)?;
    see(rt, alloc, &mut files, "build a h m n", 0, "")?;
    let (status, out) = run_words(alloc, &mut files, "run h m s 100000")?;
    assert_eq!(rt; status, 0);
    events(alloc, out.bytes())
}

#[test]
fn programs_do_what_they_mean(rt: HostRuntime) -> Result<(), NoMemory> {
    for (source, script, wanted) in &RUNS {
        let found = run_source(&rt, rt.alloc(), source.as_bytes(), script)?;
        assert_eq!(rt; found.starts_with(*wanted), true, "{source}: {found}");
    }
    Ok(())
}

// A text that stands before others so many times.
fn repeated(
    alloc: Global,
    before: &str,
    text: &str,
    count: u32,
    behind: &str,
) -> Result<String, NoMemory> {
    let mut whole = String::from_str(alloc, before)?;
    for _ in 0..count {
        whole.push_str(text)?;
    }
    whole.push_str(behind)?;
    Ok(whole)
}

// The loop's body is longer than a short jump reaches, and the code is longer than a page.
#[test]
fn a_long_loop_turns(rt: HostRuntime) -> Result<(), NoMemory> {
    let alloc = rt.alloc();
    let source = repeated(
        alloc,
        "void main(void){unsigned char i;i=0;while(i<2){",
        "P1=i;",
        800,
        "i=i+1;}}",
    )?;
    let found = run_source(&rt, alloc, source.as_bytes(), b"")?;
    let first = repeated(alloc, "L0, L1, ", "P1 0, ", 800, "L1, ")?;
    let wanted = repeated(alloc, &first, "P1 1, ", 800, "L2, end\n")?;
    assert_eq!(rt; found.as_str(), wanted.as_str());
    Ok(())
}

#[test]
fn a_ring_buffer_has_fifteen_labels(rt: HostRuntime) -> Result<(), NoMemory> {
    let alloc = rt.alloc();
    let mut files = MemoryFiles::new(alloc);
    files.place("a", RING.as_bytes())?;
    see(&rt, alloc, &mut files, "build a h m n", 0, "")?;
    let map = str::from_utf8(files.bytes("m").unwrap_or(b"")).unwrap_or("");
    assert_eq!(rt; map.lines().count(), 15);
    Ok(())
}
