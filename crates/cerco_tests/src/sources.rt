//! Sources, their programs, and why they are refused.

use cerco_base::{Fault, Reason};
use clight_check::check;
use clight_reader::parse;
use clight_syntax::{Labelled, Typed};
use clight_tokens::tokens;
use cost_labels::label;
use std::alloc::Global;
use std::process::Abort;

/// Sums the last readings of the port, each taken where two are equal.
pub const RING: &str = "unsigned char ring[32];
unsigned char head;
unsigned char tail;
unsigned char fill;
unsigned int total;
unsigned char last = 255;
unsigned char level = 255;
/* ring buffer */
void put(unsigned char b) { ring[head] = b; head = (head + 1) & 31; fill = fill + 1; }
unsigned char get(void) {
  unsigned char b;
  b = ring[tail]; tail = (tail + 1) & 31; fill = fill - 1;
  return b;
}
void add(unsigned char b) {
  unsigned char old;
  if (fill >= 16) { old = get(); total = total - old; }
  put(b);
  total = total + b;
}
void sample(void) {
  unsigned char b;
  b = P1;
  if (b == last) level = b; // two equal readings
  last = b;
  add(level);
}
void main(void) { while (1) { sample(); P1 = total >> 4; } }
";

/// An `if` with two arms, of which one does nothing.
pub const ARMS: &str = "void main(void){unsigned char a;a=P1;if(a);else P1=1;}";

/// A `do` with a `break`.
pub const DO_LOOP: &str =
    "void main(void){unsigned char a;unsigned char b;a=P1;b=P1;do{if(a)break;}while(b);}";

/// A `while` with `&&`.
pub const WHILE_BOTH: &str =
    "void main(void){unsigned char a;unsigned char b;a=P1;b=P1;while(a&&b){a=0;P1=b;}}";

// The checked program of a text.
fn checked(alloc: Global, text: &str) -> Result<Typed, Fault> {
    let list = tokens(alloc, text.as_bytes())?;
    let program = parse(alloc, &list)?;
    check(alloc, program)
}

/// The program of a text with its cost labels.
pub fn labelled(alloc: Global, text: &str) -> Result<Labelled, Fault> {
    match label(alloc, checked(alloc, text)?) {
        Ok(program) => Ok(program),
        Err(_) => Err(Fault::OutOfMemory),
    }
}

/// Why a text has no program with labels; a checked program always gets them.
pub fn refusal(alloc: Global, text: &str) -> Option<Fault> {
    match labelled(alloc, text) {
        Ok(_) => None,
        Err(fault) => Some(fault),
    }
}

/// Sees why a text is refused, or that it isn't.
pub fn see(rt: &impl Abort, alloc: Global, text: &str, wanted: Option<Reason>) {
    let found = refusal(alloc, text);
    assert_eq!(rt; found, wanted.map(Fault::Refused), "{text}");
}

/// The length of a text of fewer than 2^32 bytes.
pub fn length(text: &str) -> u32 {
    u32::try_from(text.len()).unwrap_or(0)
}
