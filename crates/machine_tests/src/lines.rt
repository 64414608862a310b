//! Lines of a listing.

use cerco_base::MemorySink;
use mcs51_isa::{decode, list_line};
use std::test::Fail;

// An address, the bytes there, and the line that the manual's notation gives for them.
const LINES: [(u16, [u8; 3], &str); 26] = [
    (0x0000, [0x75, 0x81, 0x7F], "0000 75817F MOV 81H,#7FH\n"),
    (0x0003, [0x12, 0x00, 0x08], "0003 120008 LCALL 0008H\n"),
    (0x0006, [0x80, 0xFE, 0x00], "0006 80FE SJMP 0006H\n"),
    (0x0008, [0x00, 0x22, 0x00], "0008 00 NOP\n"),
    (0x0009, [0x22, 0x00, 0x00], "0009 22 RET\n"),
    (0x000A, [0x24, 0xFF, 0x00], "000A 24FF ADD A,#FFH\n"),
    (0x000C, [0xA4, 0x00, 0x00], "000C A4 MUL AB\n"),
    (0x000D, [0xD3, 0x00, 0x00], "000D D3 SETB C\n"),
    (0x000E, [0x90, 0x12, 0x34], "000E 901234 MOV DPTR,#1234H\n"),
    (0x0011, [0xE0, 0x00, 0x00], "0011 E0 MOVX A,@DPTR\n"),
    (0x0012, [0xF0, 0x00, 0x00], "0012 F0 MOVX @DPTR,A\n"),
    (0x0013, [0x73, 0x00, 0x00], "0013 73 JMP @A+DPTR\n"),
    (0x0014, [0x83, 0x00, 0x00], "0014 83 MOVC A,@A+PC\n"),
    (0x0015, [0x93, 0x00, 0x00], "0015 93 MOVC A,@A+DPTR\n"),
    (0x0016, [0xC2, 0xD7, 0x00], "0016 C2D7 CLR D7H\n"),
    (0x0018, [0xB0, 0x7F, 0x00], "0018 B07F ANL C,/7FH\n"),
    (0x001A, [0xE7, 0x00, 0x00], "001A E7 MOV A,@R1\n"),
    (0x001B, [0xDF, 0xFD, 0x00], "001B DFFD DJNZ R7,001AH\n"),
    (0x001D, [0x85, 0x30, 0x40], "001D 853040 MOV 40H,30H\n"),
    (0x0020, [0xE1, 0xAB, 0x00], "0020 E1AB AJMP 07ABH\n"),
    (0x07FE, [0x91, 0xCD, 0x00], "07FE 91CD ACALL 0CCDH\n"),
    (
        0x0100,
        [0xB6, 0x12, 0x7F],
        "0100 B6127F CJNE @R0,#12H,0182H\n",
    ),
    (0x0103, [0x10, 0xD2, 0x04], "0103 10D204 JBC D2H,010AH\n"),
    (
        0xFF00,
        [0xB4, 0x05, 0x8A],
        "FF00 B4058A CJNE A,#05H,FE8DH\n",
    ),
    (0xFFFD, [0x02, 0xFF, 0xFD], "FFFD 02FFFD LJMP FFFDH\n"),
    (0xFFFE, [0x80, 0x0A, 0x00], "FFFE 800A SJMP 000AH\n"),
];

#[test]
fn lines_are_those_of_the_manual(rt: HostRuntime) -> Result<(), Fail> {
    for (at, bytes, text) in LINES {
        let (instr, _) = decode(bytes).ok_or("no instruction")?;
        let mut out = MemorySink::new(rt.alloc());
        list_line(at, instr, &mut out)?;
        assert_eq!(rt; out.bytes(), text.as_bytes());
    }
    Ok(())
}
