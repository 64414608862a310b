//! What programs do, from their texts.

use crate::sources::{ARMS, DO_LOOP, RING, WHILE_BOTH, labelled};
use cerco_base::{Event, Fault, NoMemory};
use clight_meaning::{Evaluator, Turn};
use clight_syntax::Labelled;
use std::alloc::Global;
use std::process::Abort;

const READS_TWO: &str = "void main(void){unsigned char x;x=P1;P1=x;x=P1;P1=x;}";

const QUOTIENT: &str = "void main(void){unsigned char a;unsigned char b;a=P1;b=8;b=b/a;P1=b;}";

// Programs, scripts, and what is told of their runs.
#[rattlefmt::skip]
const RUNS: [(&str, &[u8], &str); 15] = [
    ("void main(void){unsigned char x;x=P1;}", b"\x07", "L0 R7 end"),
    (READS_TWO, b"\x09", "L0 R9 P9 R255 P255 end"),
    (ARMS, b"\x01", "L0 R1 L1 end"),
    (ARMS, b"\x00", "L0 R0 L2 P1 end"),
    (DO_LOOP, b"\x01\x00", "L0 R1 R0 L1 L4 end"),
    (DO_LOOP, b"\x00\x00", "L0 R0 R0 L2 L4 end"),
    (WHILE_BOTH, b"\x01\x01", "L0 R1 R1 L1 L3 P1 L2 L4 end"),
    (WHILE_BOTH, b"\x01\x00", "L0 R1 R0 L1 L4 end"),
    (WHILE_BOTH, b"\x00\x01", "L0 R0 R1 L2 L4 end"),
    (WHILE_BOTH, b"\x00\x00", "L0 R0 R0 L2 L4 end"),
    ("void main(void){signed char a;unsigned char b;a=P1;b=P1;if(a<1)P1=1;if(b<1)P1=2;}", b"\xFF\xFF", "L0 R255 R255 L1 P1 L4 end"),
    ("void main(void){int c;unsigned int d;c=-1;d=0xFFFF;if(c<1)P1=1;if(d<1)P1=2;if(c==d)P1=3;}", b"", "L0 L1 P1 L4 L5 P3 end"),
    (QUOTIENT, b"\x00", "L0 R0 Zero"),
    (QUOTIENT, b"\x02", "L0 R2 P4 end"),
    ("unsigned char f(void){while(1){while(1)return 3;}}void main(void){unsigned char i;for(i=0;i<9;i=i+1){if(i==1)continue;if(i==3)break;P1=i;}i=f();P1=i;}", b"", "L5 L6 L8 L10 P0 L6 L7 L6 L8 L10 P2 L6 L8 L9 L11 L0 L1 L2 L12 P3 end"),
];

// Declarations, statements of `main`, and what is told.
#[rattlefmt::skip]
const BEHAVIOURS: [(&str, &str, &str); 22] = [
    ("", "int a;a=32767;a=a+1;P1=a>>8;", "L0 P128 end"),
    ("", "int a;a=-4;P1=a>>1;", "L0 P254 end"),
    ("", "signed char a;a=-128;a=a-1;P1=a;", "L0 P127 end"),
    ("", "unsigned char a;int b;P1=a;P1=b+1;", "L0 P0 P1 end"),
    ("int g=-2;unsigned char t[2]={3};", "P1=g;P1=t[0]+t[1];", "L0 P254 P3 end"),
    ("", "unsigned char a[2];P1=a[0];", "L0 Unset"),
    ("", "int a[3];a[0]=1;a[2]=1;P1=a[1];", "L0 Unset"),
    ("struct s{char a;char b;};", "struct s x;x.a=1;P1=x.b;", "L0 Unset"),
    ("unsigned char a[2];", "P1=a[1];P1=a[2];", "L0 P0 Outside"),
    ("unsigned char a[2];", "P1=a[-1];", "L0 Outside"),
    ("unsigned char a[2];", "a[2]=1;", "L0 Outside"),
    ("unsigned char a[2];", "unsigned char *p;p=a;p=p+2;p=p+1;", "L0 Outside"),
    ("", "unsigned char *p;*p=1;", "L0 Outside"),
    ("", "unsigned char a;unsigned char b;b=7;a=P1;a=a-255;P1=b/a;", "L0 R255 Zero"),
    ("", "unsigned char a;unsigned char b;b=7;a=P1;a=a-255;P1=b%a;", "L0 R255 Zero"),
    ("int a[2];int b[2];", "P1=&a[0]<&b[0];", "L0 Compare"),
    ("int a[2];int b[2];", "P1=&a[0]==&b[0];P1=&a[2]==&b[0];", "L0 P0 Compare"),
    ("int a[2];", "int *p;P1=&a[2]>&a[1];P1=p<&a[0];", "L0 P1 Compare"),
    ("int *p;void f(void){int x;x=5;p=&x;}", "int *q;f();q=p;P1=1;P1=*q;", "L1 L0 L2 P1 Dead"),
    ("int *p;void f(void){int x;x=5;p=&x;}", "f();P1=p==p;", "L1 L0 L2 Dead"),
    ("unsigned char f(void){return 258;}", "unsigned char x;x=f();P1=x;", "L1 L0 L2 P2 end"),
    ("unsigned char f(void){}", "unsigned char x;x=7;x=f();P1=x;", "L1 L0 L2 P0 end"),
];

// How many labels are told of at most.
const MOST_LABELS: u64 = 40;

// Adds what comes next in a run to what is told of it. The answer is whether the run goes on.
fn tell(alloc: Global, turn: Turn, words: &mut String) -> Result<bool, NoMemory> {
    let word = match turn {
        Turn::Event(Event::Label(label)) => format!(in alloc; "L{} ", label.0)?,
        Turn::Event(Event::Read(_, byte)) => format!(in alloc; "R{byte} ")?,
        Turn::Event(Event::Write(_, byte)) => format!(in alloc; "P{byte} ")?,
        Turn::Ended => String::from_str(alloc, "end")?,
        Turn::Fault(kind) => format!(in alloc; "{kind:?}")?,
    };
    words.push_str(&word)?;
    Ok(matches!(&turn, Turn::Event(_)))
}

// Tells of a run up to its end, its fault, or so many labels, which are 40 at most.
fn tell_all(
    alloc: Global,
    evaluator: &mut Evaluator<'_>,
    labels: u64,
    words: &mut String,
) -> Result<(), NoMemory> {
    for _ in 0..5000 {
        let passed = evaluator.labels();
        // `next` asks for a bound that is known, so this test is one of its own.
        if passed >= MOST_LABELS {
            return Ok(());
        }
        if passed >= labels {
            return Ok(());
        }
        let turn = evaluator.next()?;
        if !tell(alloc, turn, words)? {
            return Ok(());
        }
    }
    Ok(())
}

fn run(
    alloc: Global,
    program: &Labelled,
    script: &[u8],
    labels: u64,
    words: &mut String,
) -> Result<(), NoMemory> {
    let mut evaluator = Evaluator::new(alloc, program, script)?;
    tell_all(alloc, &mut evaluator, labels, words)
}

// Adds what is told of the run of a text.
fn run_text(
    alloc: Global,
    text: &str,
    script: &[u8],
    labels: u64,
    words: &mut String,
) -> Result<(), Fault> {
    let program = labelled(alloc, text)?;
    match run(alloc, &program, script, labels, words) {
        Ok(()) => Ok(()),
        Err(NoMemory) => Err(Fault::OutOfMemory),
    }
}

// Sees what is told of the run of a text.
fn see_run(
    rt: &impl Abort,
    alloc: Global,
    text: &str,
    script: &[u8],
    labels: u64,
    wanted: &str,
) -> Result<(), Fault> {
    let mut words = String::new(alloc);
    run_text(alloc, text, script, labels, &mut words)?;
    assert_eq!(rt; words.as_str(), wanted, "{text}");
    Ok(())
}

#[test]
fn programs_do_what_they_mean(rt: HostRuntime) -> Result<(), Fault> {
    for (text, script, wanted) in &RUNS {
        see_run(&rt, rt.alloc(), text, script, MOST_LABELS, wanted)?;
    }
    Ok(())
}

#[test]
fn a_run_is_told_up_to_a_label(rt: HostRuntime) -> Result<(), Fault> {
    let ring = "L11 L12 L7 R255 L8 L2 L5 L0 L6 L10 L13 P15 L12 ";
    see_run(
        &rt,
        rt.alloc(),
        DO_LOOP,
        b"\x00\x01",
        6,
        "L0 R0 R1 L2 L3 L2 L3 L2 ",
    )?;
    see_run(&rt, rt.alloc(), RING, b"", 11, ring)
}

#[test]
fn values_and_faults_are_those_of_the_language(rt: HostRuntime) -> Result<(), Fault> {
    for (declarations, body, wanted) in &BEHAVIOURS {
        let text = format!(in rt.alloc(); "{declarations}void main(void){{{body}}}")?;
        see_run(&rt, rt.alloc(), &text, b"", MOST_LABELS, wanted)?;
    }
    Ok(())
}

// So many times a part between two ends.
fn repeated(
    alloc: Global,
    front: &str,
    part: &str,
    times: u32,
    back: &str,
) -> Result<String, NoMemory> {
    let mut text = String::new(alloc);
    text.push_str(front)?;
    for _ in 0..times {
        text.push_str(part)?;
    }
    text.push_str(back)?;
    Ok(text)
}

#[test]
fn a_long_loop_runs_to_its_end(rt: HostRuntime) -> Result<(), Fault> {
    let alloc = rt.alloc();
    let head = "void main(void){unsigned char i;i=0;while(i<2){";
    let text = repeated(alloc, head, "P1=i;", 800, "i=i+1;}}")?;
    let zeros = repeated(alloc, "L0 L1 ", "P0 ", 800, "L1 ")?;
    let wanted = repeated(alloc, &zeros, "P1 ", 800, "L2 end")?;
    see_run(&rt, alloc, &text, b"", MOST_LABELS, &wanted)
}

#[test]
fn a_long_main_runs_to_its_end(rt: HostRuntime) -> Result<(), Fault> {
    let alloc = rt.alloc();
    let text = repeated(alloc, "void main(void){", "P1=1;", 4000, "}")?;
    let wanted = repeated(alloc, "L0 ", "P1 ", 4000, "end")?;
    see_run(&rt, alloc, &text, b"", MOST_LABELS, &wanted)
}
