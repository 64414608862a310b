//! What is read of an annotated text, and the text without its annotations.

use annotate::{erase, read_cost};
use cerco_base::{IoFault, SoundSink};

const EMPTY_ANNOTATED: &[u8] =
    b"/*@*/unsigned long __cost=4;/*@*/void main(void){/*@*/__cost+=3;/*@*/}";

#[test]
fn costs_are_read_by_number(rt: HostRuntime) {
    assert!(rt; read_cost(EMPTY_ANNOTATED, 0) == Some(4));
    assert!(rt; read_cost(EMPTY_ANNOTATED, 1) == Some(3));
    assert!(rt; read_cost(EMPTY_ANNOTATED, 2) == None);
    assert!(rt; read_cost(b"/*@*/__cost=4294967296;__cost+=7;/*@*/__cost+=8;", 0) == None);
    assert!(rt; read_cost(b"/*@*/__cost=4294967296;__cost+=7;/*@*/__cost+=8;", 1) == Some(7));
    assert!(rt; read_cost(b"/*@*/__cost=4294967296;__cost+=7;/*@*/__cost+=8;", 2) == None);
}

#[test]
fn annotations_are_taken_away(rt: HostRuntime) -> Result<(), IoFault> {
    let mut out = SoundSink::new(rt.alloc());
    erase(EMPTY_ANNOTATED, &mut out)?;
    assert!(rt; out.bytes() == b"void main(void){}".as_slice());
    let mut other = SoundSink::new(rt.alloc());
    erase(b"a/*@*/b", &mut other)?;
    assert!(rt; other.bytes() == b"a".as_slice());
    Ok(())
}
