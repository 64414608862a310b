//! The tree of a source, or why it has none.

use crate::sources::{length, refusal, see};
use cerco_base::{Fault, NoMemory, Reason};
use std::alloc::Global;

// Texts that have each form of the grammar.
#[rattlefmt::skip]
const ACCEPTED: [&str; 10] = [
    "",
    "struct s { int a; unsigned char *p[2][3]; };",
    "long g; int h = -1; int t[2] = { 1, -2 }; struct s *q;",
    "void f(void); signed char h(int a, struct s *b);",
    "char a; unsigned char b; signed char c; int d; signed int e; signed f; unsigned g; unsigned int h; long i; long int j; signed long k; signed long int l; unsigned long m; unsigned long int n; void *o;",
    "void f(void) { int x = a + 1; char y; ; { x = 1; } }",
    "void f(void) { if (x) if (y) x = 2; else x = 3; while (x) break; do continue; while (!x); }",
    "void f(void) { for (x = 0; x < 3; x = x + 1) ; for (;;) ; return; return x; }",
    "void f(void) { P1 = x; *p = P1; x = h(x, &b[1]); f(); b->a.c = x - y - (int) -b.a * ~2; }",
    "void f(void) { x = a || b && c | d ^ e & f == g != h < i > j <= k >= l << m >> n + o - p * q / r % s; }",
];

// Texts that are refused after the first part.
#[rattlefmt::skip]
const REFUSED: [(&str, &str); 38] = [
    ("", "typedef int t;"),
    ("struct s {", "};"),
    ("struct s { int a", "= 1; };"),
    ("struct s { int a; }", "x;"),
    ("int t = {", "};"),
    ("int t = { 1,", "};"),
    ("int g = 1", "+ 1;"),
    ("int f(", ");"),
    ("int f(int a", "[2]);"),
    ("int f(void", ", int a);"),
    ("long ", "long a;"),
    ("unsigned ", "signed a;"),
    ("char ", "int a;"),
    ("void f(void) { x = 1; ", "int y; }"),
    ("void f(void) { int x ", "x = 1; }"),
    ("void f(void) { ", "else ; }"),
    ("void f(void) { if (x) ; else ; ", "else ; }"),
    ("void f(void) { do ; ", "x = 1; }"),
    ("void f(void) { while (", ") ; }"),
    ("void f(void) { for (;; y", ") ; }"),
    ("void f(void) { break ", "x; }"),
    ("void f(void) { *p ", "+ 1; }"),
    ("void f(void) { x = f() ", "+ 1; }"),
    ("void f(void) { x[0] = f", "(); }"),
    ("void f(void) { x = P1 ", "+ 1; }"),
    ("void f(void) { x = ", "; }"),
    ("void f(void) { x = a ", "b; }"),
    ("void f(void) { x = (int", "*) y; }"),
    ("void f(void) { x = s.", "1; }"),
    ("void f(void) { x", "; }"),
    ("void f(void) { x = y ", "= 1; }"),
    ("void f(void) { f(x,", "); }"),
    ("void f(void) { return ", "int; }"),
    ("void f(void) { x = a + ", "P1; }"),
    ("void f(void) {} ", ";"),
    ("void main(void){P1=1", "}"),
    ("int x", ""),
    ("void main(void) { break", ""),
];

// What repeats around the middle of a text, and where the part begins that then nests too deep.
struct Nest {
    front: &'static str,
    left: &'static str,
    middle: &'static str,
    right: &'static str,
    back: &'static str,
    at: u32,
}

#[rattlefmt::skip]
const NESTS: [Nest; 5] = [
    Nest { front: "void main(void){P1=", left: "(", middle: "1", right: ")", back: ";}", at: 19 },
    Nest { front: "void main(void){P1=", left: "~", middle: "1", right: "", back: ";}", at: 19 },
    Nest { front: "void main(void){", left: "{", middle: "", right: "}", back: "}", at: 16 },
    Nest { front: "int ", left: "*", middle: "p", right: "", back: ";", at: 4 },
    Nest { front: "int p", left: "[1]", middle: "", right: "", back: ";", at: 4 },
];

impl Nest {
    fn text(&self, alloc: Global, times: usize) -> Result<String, NoMemory> {
        let mut text = String::new(alloc);
        text.push_str(self.front)?;
        for _ in 0..times {
            text.push_str(self.left)?;
        }
        text.push_str(self.middle)?;
        for _ in 0..times {
            text.push_str(self.right)?;
        }
        text.push_str(self.back)?;
        Ok(text)
    }
}

// Whether a text has a tree. A fault of its names, types, calls or data is looked for only then.
fn has_tree(alloc: Global, text: &str) -> bool {
    match refusal(alloc, text) {
        None => true,
        Some(Fault::Refused(reason)) => matches!(
            &reason,
            Reason::Name { .. } | Reason::Typing { .. } | Reason::Recursion { .. }
        ),
        Some(Fault::OutOfMemory) => false,
    }
}

#[test]
fn each_form_is_read(rt: HostRuntime) {
    for text in &ACCEPTED {
        assert!(rt; has_tree(rt.alloc(), text), "{text}");
    }
}

#[test]
fn faults_have_their_places(rt: HostRuntime) -> Result<(), NoMemory> {
    for (front, back) in &REFUSED {
        let text = format!(in rt.alloc(); "{front}{back}")?;
        let at = length(front);
        see(&rt, rt.alloc(), &text, Some(Reason::Syntax { at }));
    }
    Ok(())
}

// Whether a part that is repeated so often nests too deep.
fn is_refused(alloc: Global, nest: &Nest, times: usize) -> Result<bool, NoMemory> {
    let found = refusal(alloc, &nest.text(alloc, times)?);
    Ok(found == Some(Fault::Refused(Reason::Nesting { at: nest.at })))
}

// Whether a part that is repeated so often has a tree.
fn is_read(alloc: Global, nest: &Nest, times: usize) -> Result<bool, NoMemory> {
    Ok(has_tree(alloc, &nest.text(alloc, times)?))
}

#[test]
fn nesting_ends_at_64(rt: HostRuntime) -> Result<(), NoMemory> {
    let alloc = rt.alloc();
    for nest in &NESTS {
        assert!(rt; is_read(alloc, nest, 64)?, "{}{}", nest.front, nest.left);
        assert!(rt; is_refused(alloc, nest, 65)?, "{}{}", nest.front, nest.left);
        assert!(rt;
            is_refused(alloc, nest, 5000)?,
            "{}{}",
            nest.front,
            nest.left
        );
    }
    Ok(())
}
