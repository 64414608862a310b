//! The annotated text of a source, and the list of its points.

use annotate::annotate;
use cerco_base::{IoFault, Label, MemorySink, SoundSink};
use clight_syntax::{Piece, Point, Points};
use std::test::Fail;

const START: Point = Point {
    at: 0,
    piece: Piece::Start,
};

// After the brace of `void main(void){`.
const BODY: Point = Point {
    at: 16,
    piece: Piece::After(Label(0)),
};

#[test]
fn an_empty_main_is_annotated(rt: HostRuntime) -> Result<(), Fail> {
    let mut points = Points::new(rt.alloc());
    points.push(START)?;
    points.push(BODY)?;
    let mut out = SoundSink::new(rt.alloc());
    annotate(b"void main(void){}", &points, 4, &[3], &mut out)?;
    assert_eq!(rt;
        out.bytes(),
        b"/*@*/unsigned long __cost=4;/*@*/void main(void){/*@*/__cost+=3;/*@*/}".as_slice()
    );
    Ok(())
}

#[test]
fn a_main_with_a_port_write_is_annotated(rt: HostRuntime) -> Result<(), Fail> {
    let mut points = Points::new(rt.alloc());
    points.push(START)?;
    points.push(BODY)?;
    let mut out = MemorySink::new(rt.alloc());
    annotate(b"void main(void){P1=5;}", &points, 4, &[5], &mut out)?;
    assert_eq!(rt;
        out.bytes(),
        b"/*@*/unsigned long __cost=4;/*@*/void main(void){/*@*/__cost+=5;/*@*/P1=5;}".as_slice()
    );
    Ok(())
}

#[test]
fn a_fault_leaves_a_prefix(rt: HostRuntime) -> Result<(), Fail> {
    let mut points = Points::new(rt.alloc());
    points.push(START)?;
    let mut out = MemorySink::new(rt.alloc());
    out.fail(2)?;
    assert_eq!(rt;
        annotate(b"a", &points, 4_294_967_295, &[], &mut out),
        Err(IoFault::Failed)
    );
    assert_eq!(rt;
        out.bytes(),
        b"/*@*/unsigned long __cost=4294967295".as_slice()
    );
    Ok(())
}

#[test]
fn a_condition_and_an_arm_are_annotated(rt: HostRuntime) -> Result<(), Fail> {
    let mut points = Points::new(rt.alloc());
    points.push(Point {
        at: 0,
        piece: Piece::CondOpen,
    })?;
    points.push(Point {
        at: 1,
        piece: Piece::CondBoth(Label(0), Label(1)),
    })?;
    points.push(Point {
        at: 4,
        piece: Piece::ArmOpen(Label(2)),
    })?;
    points.push(Point {
        at: 5,
        piece: Piece::ThenClose(Label(3)),
    })?;
    let mut out = SoundSink::new(rt.alloc());
    annotate(b"a&&b;", &points, 0, &[1, 2, 3, 4], &mut out)?;
    assert_eq!(rt;
        out.bytes(),
        b"/*@*/((/*@*/a/*@*/)?(__cost+=1,1):(__cost+=2,0))/*@*/&&b/*@*/{__cost+=3;/*@*/;/*@*/}else{__cost+=4;}/*@*/".as_slice()
    );
    Ok(())
}

#[test]
fn points_keep_their_order(rt: HostRuntime) -> Result<(), Fail> {
    let mut points = Points::new(rt.alloc());
    points.push(START)?;
    points.push(BODY)?;
    let found = points.as_slice();
    assert_eq!(rt; found.len(), 2);
    assert!(rt;
        matches!(
            &found[0],
            Point {
                at: 0,
                piece: Piece::Start
            }
        )
    );
    assert!(rt;
        matches!(
            &found[1],
            Point {
                at: 16,
                piece: Piece::After(Label(0))
            }
        )
    );
    Ok(())
}
