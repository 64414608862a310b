//! The texts of an object: its code in Intel's hexadecimal object format, and the addresses of its labels.

use cerco_base::{IoFault, MemorySink, NoMemory, SoundSink};
use object_hex::{HexError, MapError, read_hex, read_map, write_hex, write_map};
use std::alloc::Global;
use std::process::Abort;
use std::test::Fail;

// MOV SP,#7FH; LCALL 0008H; SJMP $; NOP; RET
const MAIN: &[u8; 10] = &[0x75, 0x81, 0x7F, 0x12, 0x00, 0x08, 0x80, 0xFE, 0x00, 0x22];

const MAIN_BYTES: &str = "[117, 129, 127, 18, 0, 8, 128, 254, 0, 34]";

const MAIN_HEX: &[u8; 44] = b":0A00000075817F12000880FE0022C7\n:00000001FF\n";

// Seventeen bytes A0H, of which the last is in a record of its own.
const SEVENTEEN: &str = ":10000000A0A0A0A0A0A0A0A0A0A0A0A0A0A0A0A0F0\n:01001000A04F\n:00000001FF\n";

// The longest text that is read here, in bytes.
const LONGEST: usize = 1000;

// A code is written as this text.
fn expect_hex(rt: &impl Abort, alloc: Global, code: &[u8], text: &[u8]) -> Result<(), IoFault> {
    let mut out = SoundSink::new(alloc);
    if code.len() <= LONGEST {
        write_hex(code, &mut out)?;
    }
    assert_eq!(rt; out.bytes(), text, "{code:?}");
    Ok(())
}

// The addresses of labels are written as this text.
fn expect_map(rt: &impl Abort, alloc: Global, labels: &[u16], text: &[u8]) -> Result<(), IoFault> {
    let mut out = MemorySink::new(alloc);
    write_map(labels, &mut out)?;
    assert_eq!(rt; out.bytes(), text, "{labels:?}");
    Ok(())
}

#[test]
fn objects_are_written(rt: HostRuntime) -> Result<(), Fail> {
    let alloc = rt.alloc();
    expect_hex(&rt, alloc, MAIN, MAIN_HEX)?;
    expect_hex(&rt, alloc, &[0xA0; 17], SEVENTEEN.as_bytes())?;
    expect_hex(&rt, alloc, &[], b":00000001FF\n")?;
    expect_map(&rt, alloc, &[8], b"0 0008\n")?;
    expect_map(&rt, alloc, &[0, 0xFFFF, 0xAB], b"0 0000\n1 FFFF\n2 00AB\n")?;
    Ok(())
}

#[test]
fn a_fault_leaves_a_prefix(rt: HostRuntime) -> Result<(), Fail> {
    let mut hex = MemorySink::new(rt.alloc());
    hex.fail(2)?;
    assert_eq!(rt; write_hex(MAIN, &mut hex), Err(IoFault::Failed));
    assert_eq!(rt; hex.bytes(), b":0A000000".as_slice());
    let mut map = MemorySink::new(rt.alloc());
    map.fail(1)?;
    assert_eq!(rt; write_map(&[8], &mut map), Err(IoFault::Failed));
    assert_eq!(rt; map.bytes(), b"0".as_slice());
    Ok(())
}

// The code of a text, or its first bad line and what is wrong with it.
fn hex_told(alloc: Global, text: &[u8]) -> Result<String, NoMemory> {
    if text.len() > LONGEST {
        return Ok(String::new(alloc));
    }
    match read_hex(alloc, text) {
        Ok(code) => Ok(format!(in alloc; "{:?}", code.as_slice())?),
        Err(HexError::Fault(fault)) => Ok(format!(in alloc; "{} {:?}", fault.line, fault.kind)?),
        Err(HexError::OutOfMemory) => Err(NoMemory),
    }
}

#[test]
fn a_cut_text_is_refused(rt: HostRuntime) -> Result<(), Fail> {
    for length in 0..MAIN_HEX.len() + 1 {
        let told = hex_told(rt.alloc(), &MAIN_HEX[..length])?;
        let wanted = match length {
            0 => "1 NoEnd",
            1..=30 => "1 Form",
            31 | 32 => "2 NoEnd",
            33..=42 => "2 Form",
            _ => MAIN_BYTES,
        };
        assert_eq!(rt; told.as_str(), wanted, "{length} bytes");
    }
    Ok(())
}

// Texts, and the code that they give or their first bad line. A CR that no LF follows is a byte of its line.
#[rattlefmt::skip]
const HEX_TEXTS: [(&str, &str); 15] = [
    ("x\n:00000001FF\n", "1 Form"),
    ("\n:00000001FF\n", "1 Form"),
    (":00000001FFF\n:00000001FF\n", "1 Form"),
    (":00000001FF\r", "1 Form"),
    (":020000040000F9\n:00000001FF\n", "1 Sum"),
    (":00000005FB\n:00000001FF\n", "1 Type"),
    (":0100000400FB\n:00000001FF\n", "1 Upper"),
    (":020000040001F9\n", "1 Upper"),
    (":01000001AA54\n:00000001FF\n", "1 End"),
    (":02FFFF00000000\n:00000001FF\n", "1 Range"),
    (":0100000001FE\n:0100000001FE\n:00000001FF\n", "2 Twice"),
    (":00000001FF\n:00000001FF\n", "2 After"),
    (":00000001FF\n\n", "2 After"),
    (":020000040000FA\r\n:01000500ab4F\r\n:01000200CD30\r\n:00000001ff", "[0, 0, 205, 0, 0, 171]"),
    (SEVENTEEN, "[160, 160, 160, 160, 160, 160, 160, 160, 160, 160, 160, 160, 160, 160, 160, 160, 160]"),
];

#[test]
fn the_first_bad_line_is_named(rt: HostRuntime) -> Result<(), Fail> {
    for (text, wanted) in &HEX_TEXTS {
        let told = hex_told(rt.alloc(), text.as_bytes())?;
        assert_eq!(rt; told.as_str(), *wanted, "{text}");
    }
    Ok(())
}

// The addresses of a text, or its first bad line.
fn map_told(alloc: Global, text: &[u8]) -> Result<String, NoMemory> {
    if text.len() > LONGEST {
        return Ok(String::new(alloc));
    }
    match read_map(alloc, text) {
        Ok(labels) => Ok(format!(in alloc; "{:?}", labels.as_slice())?),
        Err(MapError::Fault(fault)) => Ok(format!(in alloc; "line {}", fault.line)?),
        Err(MapError::OutOfMemory) => Err(NoMemory),
    }
}

#[rattlefmt::skip]
const MAP_TEXTS: [(&str, &str); 8] = [
    ("0 0008\r\n1 ffFF", "[8, 65535]"),
    ("", "[]"),
    ("0 0008\n1 0008\n", "line 2"),
    ("0 0008\n01 0009\n", "line 2"),
    ("1 0008\n", "line 1"),
    ("0 0008\n\n", "line 2"),
    ("0  0008\n", "line 1"),
    ("0 00008\n", "line 1"),
];

#[test]
fn label_addresses_are_read(rt: HostRuntime) -> Result<(), Fail> {
    for (text, wanted) in &MAP_TEXTS {
        let told = map_told(rt.alloc(), text.as_bytes())?;
        assert_eq!(rt; told.as_str(), *wanted, "{text}");
    }
    Ok(())
}
