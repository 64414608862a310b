//! The text of an object's code.
ghost use Rattle.std.specs.Prelude.{◌≡◌, ◌%◌, ◌^◌, ◌<◌, ◌≤◌, ◌++◌, ◌∷◌, [], length, sum};
ghost use Rattle.cerco_base.specs.Outside.IoCalls.{PutsText};
ghost use Rattle.object_hex.specs.HexText.{checksum, record_line, hex_text};

use crate::digits::{MOST_BYTES, put_pairs};
use cerco_base::{IoFault, Sink, put_all};

// The types of records.
const DATA: u8 = 0;

const END_OF_FILE: u8 = 1;

// The sum of some bytes.
fn sum_of(bytes: &[u8]) -> u32
    requires { length bytes.now ≤ MOST_BYTES }
    ensures value { result ≡ sum bytes.now }
    ensures small { result < 2 ^ 16 }
{
    bytes.iter().map(|byte| u32::from(*byte)).sum()
}

// The byte with which the bytes of a record sum to 0 modulo 256.
fn checksum_of(head: &[u8; 4], data: &[u8]) -> u8
    requires { length «data».now ≤ MOST_BYTES }
    ensures value { result ≡ checksum (head.now ++ «data».now) }
    ensures closes { sum (head.now ++ «data».now ++ result ∷ []) % 256 ≡ 0 }
{
    let sum = sum_of(head) + sum_of(data);
    ((256 - sum % 256) % 256) as u8
}

// Puts the line of a record.
fn put_record<O: Sink>(kind: u8, offset: u16, data: &[u8], out: &mut O) -> Result<(), IoFault>
    requires { length «data».now ≤ MOST_BYTES }
    ensures { PutsText (O.state out.old) (O.state out.new)
        (record_line kind offset «data».now) result }
{
    let head = [
        data.len() as u8,
        (offset / 256) as u8,
        (offset % 256) as u8,
        kind,
    ];
    put_all(out, b":")?;
    put_pairs(&head, out)?;
    put_pairs(data, out)?;
    put_pairs(&[checksum_of(&head, data)], out)?;
    put_all(out, b"\n")
}

/// Puts the text of a code: data records of 16 bytes by rising address, a shorter one at the end,
/// and the end of file record. It takes no memory but through the output.
///
/// # Errors
///
/// The fault of the output. A prefix of the text was put then.
pub fn write_hex<O: Sink>(code: &[u8], out: &mut O) -> Result<(), IoFault>
    requires { length code.now ≤ 65536 }
    ensures { PutsText (O.state out.old) (O.state out.new) (hex_text code.now) result }
{
    for i in 0..code.len().div_ceil(MOST_BYTES) {
        let from = MOST_BYTES * i;
        let to = code.len().min(from + MOST_BYTES);
        put_record(DATA, from as u16, &code[from..to], out)?;
    }
    put_record(END_OF_FILE, 0, &[], out)
}
