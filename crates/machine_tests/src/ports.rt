//! Ports: their pins and their latches.

use crate::programs::finish;
use cerco_base::Event::{self, Read, Write};
use cerco_base::Port::{P0, P1, P2, P3};
use std::test::Fail;

/// Programs with the bytes that the pins show, what they leave in the accumulator and the program
/// status word, and their events.
const SHOWN: &[(&str, &[u8], &[u8], u8, u8, &[Event])] = &[
    (
        "MOV 30H,#40H; MOV 40H,#10H; MOV R0,#30H; MOV A,@R0; MOV R1,A; MOV B,@R1; MOV @R1,P1; MOV P2,P1",
        &[
            0x75, 0x30, 0x40, 0x75, 0x40, 0x10, 0x78, 0x30, 0xE6, 0xF9, 0x87, 0xF0, 0xA7, 0x90,
            0x85, 0x90, 0xA0,
        ],
        &[0xCA, 0xCA],
        0x40,
        0x01,
        &[Read(P1, 0xCA), Read(P1, 0xCA), Write(P2, 0xCA)],
    ),
    (
        "MOV A,#56H; JB P1.2,8; JB ACC.2,0AH; MOV A,#0",
        &[0x74, 0x56, 0x20, 0x92, 0x03, 0x20, 0xE2, 0x02, 0x74, 0x00],
        &[0xCA],
        0x56,
        0x00,
        &[Read(P1, 0xCA)],
    ),
    (
        "MOV P1,#5DH; CLR P1.2",
        &[0x75, 0x90, 0x5D, 0xC2, 0x92],
        &[],
        0x00,
        0x00,
        &[Write(P1, 0x5D), Write(P1, 0x59)],
    ),
    (
        "MOV P1,#34H; SETB C; SETB P1.0",
        &[0x75, 0x90, 0x34, 0xD3, 0xD2, 0x90],
        &[],
        0x00,
        0x80,
        &[Write(P1, 0x34), Write(P1, 0x35)],
    ),
    (
        "MOV P1,#5DH; CPL P1.1; CPL P1.2",
        &[0x75, 0x90, 0x5D, 0xB2, 0x91, 0xB2, 0x92],
        &[],
        0x00,
        0x00,
        &[Write(P1, 0x5D), Write(P1, 0x5F), Write(P1, 0x5B)],
    ),
    (
        "MOV P1,#35H; SETB C; MOV P1.3,C; MOV C,P3.3; MOV P1.2,C",
        &[0x75, 0x90, 0x35, 0xD3, 0x92, 0x93, 0xA2, 0xB3, 0x92, 0x92],
        &[0xC5],
        0x00,
        0x00,
        &[
            Write(P1, 0x35),
            Write(P1, 0x3D),
            Read(P3, 0xC5),
            Write(P1, 0x39),
        ],
    ),
    (
        "MOV A,#80H; MOV C,P1.0; ANL C,ACC.7; ANL C,/OV",
        &[0x74, 0x80, 0xA2, 0x90, 0x82, 0xE7, 0xB0, 0xD2],
        &[0x01],
        0x80,
        0x81,
        &[Read(P1, 0x01)],
    ),
    (
        "MOV PSW,#4; MOV C,P1.0; ORL C,ACC.7; ORL C,/OV",
        &[0x75, 0xD0, 0x04, 0xA2, 0x90, 0x72, 0xE7, 0xA0, 0xD2],
        &[0x00],
        0x00,
        0x04,
        &[Read(P1, 0x00)],
    ),
    (
        "MOV A,#34H; CJNE A,P1,7; MOV A,#11H",
        &[0x74, 0x34, 0xB5, 0x90, 0x02, 0x74, 0x11],
        &[0x34],
        0x11,
        0x00,
        &[Read(P1, 0x34)],
    ),
    (
        "INC P1",
        &[0x05, 0x90],
        &[0x07],
        0x00,
        0x00,
        &[Write(P1, 0x00)],
    ),
    (
        "DJNZ P3,3",
        &[0xD5, 0xB0, 0x00],
        &[0x07],
        0x00,
        0x00,
        &[Write(P3, 0xFE)],
    ),
    (
        "ANL P1,#0FH",
        &[0x53, 0x90, 0x0F],
        &[0x07],
        0x00,
        0x00,
        &[Write(P1, 0x0F)],
    ),
    (
        "MOV A,#34H; XCH A,P1",
        &[0x74, 0x34, 0xC5, 0x90],
        &[0x12],
        0x12,
        0x00,
        &[Read(P1, 0x12), Write(P1, 0x34)],
    ),
    (
        "PUSH P1; MOV A,8",
        &[0xC0, 0x90, 0xE5, 0x08],
        &[0x77],
        0x77,
        0x00,
        &[Read(P1, 0x77)],
    ),
    // past the end of the script the pins show FFH
    (
        "MOV A,P0; MOV A,P0",
        &[0xE5, 0x80, 0xE5, 0x80],
        &[0x01],
        0xFF,
        0x00,
        &[Read(P0, 0x01), Read(P0, 0xFF)],
    ),
    (
        "MOV P1,#0; JBC P1.0,6",
        &[0x75, 0x90, 0x00, 0x10, 0x90, 0x00],
        &[0x01],
        0x00,
        0x00,
        &[Write(P1, 0x00)],
    ),
    (
        "JBC P1.0,3",
        &[0x10, 0x90, 0x00],
        &[0x01],
        0x00,
        0x00,
        &[Write(P1, 0xFE)],
    ),
];

#[test]
fn ports_show_their_pins_and_keep_their_latches(rt: HostRuntime) -> Result<(), Fail> {
    for (text, program, script, acc, psw, events) in SHOWN {
        let (machine, shown) = finish(&rt, rt.alloc(), program, script)?;
        assert_eq!(rt; machine.iram(0x60), *acc, "A after {text}");
        assert_eq!(rt; machine.iram(0x61), *psw, "PSW after {text}");
        assert!(rt; shown.as_slice() == *events, "{text} shows {shown:?}");
    }
    Ok(())
}
