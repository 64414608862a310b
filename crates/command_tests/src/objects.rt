//! Objects that are run and listed, and texts of objects that are bad.

use crate::seeing::{EMPTY_HEX, MAP, see};
use cerco_base::{MemoryFiles, NoMemory};

// The longest file that isn't a source, in bytes.
const LONGEST: usize = 16_777_216;

const END: &str = ":00000001FF\n";

const EMPTY: &str = ":0A00000075817F12000880FE0022C7\n:00000001FF\n";

const RESERVED: &str = ":01000000A55A\n:00000001FF\n";

// The files of an object, the addresses of its labels and a script; the words; the status and what is printed.
#[rattlefmt::skip]
const ROWS: [(&str, &str, &[u8], &str, u8, &str); 16] = [
    // MOV A,P1; MOV P2,A; SJMP $
    (":06000000E590F5A080FE72\n:00000001FF\n", "", b"\x07", "run h m s 100", 0, "R1 7 0\nP2 7 1\nend 2\n"),
    // ANL P1,#0FH; SJMP $
    (":0500000053900F80FE8B\n:00000001FF\n", "", b"", "run h m s 100", 0, "P1 15 0\nend 2\n"),
    // no byte
    (END, "", b"", "run h m s 5", 0, "stop 5\n"),
    (END, "", b"", "run h m m 0", 0, "stop 0\n"),
    (END, "", b"", "list h", 0, ""),
    // A5H
    (RESERVED, "", b"", "list h", 8, "reserved 0000\n"),
    (RESERVED, "", b"", "run h m s 9", 8, "reserved 0000\n"),
    (RESERVED, "", b"", "run h m s 0", 0, "stop 0\n"),
    // NOP, A5H, and at the end an instruction whose operand is past it
    (":0300000000A575E3\n:00000001FF\n", "", b"", "list h", 8, "0000 00 NOP\nreserved 0001\n"),
    (":020000000075 89\n:00000001FF\n", "", b"", "list h", 6, "bad hex 1 form\n"),
    (":02000000007589\n:00000001FF\n", "", b"", "list h", 0, "0000 00 NOP\n0001 750000 MOV 00H,#00H\n"),
    // bad texts, and good ones beside them
    (":0A00000075817F12000880FE0022C8\n:00000001FF\n", "0 0008\n", b"", "run h m s 100", 6, "bad hex 1 sum\n"),
    (":0A00000075817F12000880FE0022C7\n", "0 0008\n", b"", "run h m s 100", 6, "bad hex 2 noend\n"),
    (":020000040000FA\n:0A00000075817F12000880FE0022C7\n:00000001FF\n", "0 0008\n", b"", "run h m s 100", 0, "L0 4\nend 7\n"),
    (":020000040001F9\n:0A00000075817F12000880FE0022C7\n:00000001FF\n", "0 0008\n", b"", "run h m s 100", 6, "bad hex 1 upper\n"),
    (EMPTY, "0 0008\n1 0008\n", b"", "run h m s 100", 6, "bad map 2\n"),
];

// Puts the three files of an object in their places.
fn place(files: &mut MemoryFiles, hex: &[u8], map: &[u8], script: &[u8]) -> Result<(), NoMemory> {
    files.place("h", hex)?;
    files.place("m", map)?;
    files.place("s", script)
}

#[test]
fn objects_are_run_and_listed(rt: HostRuntime) -> Result<(), NoMemory> {
    let alloc = rt.alloc();
    let mut files = MemoryFiles::new(alloc);
    for (hex, map, script, words, status, printed) in &ROWS {
        place(&mut files, hex.as_bytes(), map.as_bytes(), script)?;
        see(&rt, alloc, &mut files, words, *status, printed)?;
    }
    Ok(())
}

#[test]
fn the_longest_script_is_read(rt: HostRuntime) -> Result<(), NoMemory> {
    let alloc = rt.alloc();
    let long = vec![in alloc; b'0'; LONGEST]?;
    let mut files = MemoryFiles::new(alloc);
    place(&mut files, EMPTY_HEX, MAP, &long)?;
    see(&rt, alloc, &mut files, "run h m s 100", 0, "L0 4\nend 7\n")
}

#[test]
fn the_length_of_each_file_comes_before_its_text(rt: HostRuntime) -> Result<(), NoMemory> {
    let alloc = rt.alloc();
    let long = vec![in alloc; b'0'; LONGEST + 1]?;
    let mut files = MemoryFiles::new(alloc);
    place(&mut files, EMPTY_HEX, b"0 0008\n1 0008\n", &long)?;
    see(&rt, alloc, &mut files, "run h m s 100", 6, "bad file s\n")?;
    files.place("h", &long)?;
    see(&rt, alloc, &mut files, "list h", 6, "bad file h\n")
}
