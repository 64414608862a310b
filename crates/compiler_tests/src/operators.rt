//! Each operator on each pair of types.

use crate::runs::agrees;
use cerco_base::Fault;
use std::alloc::Global;
use std::process::Abort;

const TYPES: [&str; 5] = [
    "unsigned char",
    "signed char",
    "char",
    "int",
    "unsigned int",
];

#[rattlefmt::skip]
const BODY: &str = "x=P1;y=P1;x=x-100;y=y+77;\
r=x+y;P1=r;P1=r>>8;r=x-y;P1=r;P1=r>>8;r=x&y;P1=r;P1=r>>8;r=x|y;P1=r;P1=r>>8;r=x^y;P1=r;P1=r>>8;\
r=x<y;P1=r;r=x<=y;P1=r;r=x>y;P1=r;r=x>=y;P1=r;r=x==y;P1=r;r=x!=y;P1=r;\
r=-x;P1=r;P1=r>>8;r=~y;P1=r;P1=r>>8;r=x<<3;P1=r;P1=r>>8;r=y>>5;P1=r;P1=r>>8;\
if(x&&y)P1=1;if(x||y)P1=2;if(!(x<y))P1=3;x=y;P1=x;P1=(signed char)x;P1=(unsigned int)y>>8;";

#[rattlefmt::skip]
const SCRIPTS: [&[u8]; 6] = [b"", b"\x00\x00", b"\x64\xB3", b"\x80\x80", b"\x7F\x01", b"\xFF\x00"];

fn agrees_on(alloc: Global, left: &str, right: &str) -> Result<bool, Fault> {
    let text = format!(in alloc; "void main(void){{{left} x;{right} y;int r;{BODY}}}")?;
    agrees(alloc, text.as_bytes(), &SCRIPTS)
}

// Sees the operators with a left operand of this type.
fn see_left(rt: &impl Abort, alloc: Global, left: &str) -> Result<(), Fault> {
    for right in &TYPES {
        assert!(rt; agrees_on(alloc, left, right)?, "{left}, {right}");
    }
    Ok(())
}

#[test]
fn operators_on_unsigned_char(rt: HostRuntime) -> Result<(), Fault> {
    see_left(&rt, rt.alloc(), "unsigned char")
}

#[test]
fn operators_on_signed_char(rt: HostRuntime) -> Result<(), Fault> {
    see_left(&rt, rt.alloc(), "signed char")
}

#[test]
fn operators_on_char(rt: HostRuntime) -> Result<(), Fault> {
    see_left(&rt, rt.alloc(), "char")
}

#[test]
fn operators_on_int(rt: HostRuntime) -> Result<(), Fault> {
    see_left(&rt, rt.alloc(), "int")
}

#[test]
fn operators_on_unsigned_int(rt: HostRuntime) -> Result<(), Fault> {
    see_left(&rt, rt.alloc(), "unsigned int")
}

#[test]
fn products_and_quotients(rt: HostRuntime) -> Result<(), Fault> {
    let text =
        b"void main(void){unsigned char x;unsigned char y;unsigned int r;x=P1;y=P1;r=x*y;P1=r;P1=r>>8;r=x/y;P1=r;r=x%y;P1=r;}";
    assert!(rt;
        agrees(
            rt.alloc(),
            text,
            &[b"\xFF\xFF", b"\xC8\x07", b"\x00\x09", b"\x05\x00"]
        )?
    );
    Ok(())
}
