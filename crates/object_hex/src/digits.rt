//! Bytes as pairs of hex digits.
ghost use Rattle.std.specs.Prelude.{◌≡◌, ◌*◌, ◌≤◌, ◌<◌, length, map};
ghost use Rattle.std.specs.Char.{to_ascii_uppercase};
ghost use Rattle.cerco_base.specs.Outside.IoCalls.{PutsText};
ghost use Rattle.object_hex.specs.Digits.{pairs};

use cerco_base::{IoFault, Sink, put_all};

/// The most bytes that are put as pairs at once.
pub const MOST_BYTES: usize = 16;

// Makes the digits `a` to `f` upper case.
fn raise(text: &mut [u8])
    ensures { text.new ≡ map to_ascii_uppercase text.old }
{
    for digit in text {
        digit.make_ascii_uppercase();
    }
}

// Writes bytes as pairs of upper case digits.
fn write_pairs(bytes: &[u8], text: &mut [u8])
    requires { length text.old ≡ 2 * length bytes.now }
    ensures { text.new ≡ pairs bytes.now }
{
    hex::encode_to_slice(bytes, text).unwrap();
    raise(text);
}

/// Puts bytes as pairs of upper case digits.
///
/// # Errors
///
/// The fault of the output. A prefix of the digits was put then.
pub fn put_pairs<O: Sink>(bytes: &[u8], out: &mut O) -> Result<(), IoFault>
    requires { length bytes.now ≤ MOST_BYTES }
    ensures { PutsText (O.state out.old) (O.state out.new) (pairs bytes.now) result }
{
    let mut room = [0; 2 * MOST_BYTES];
    let text = &mut room[..2 * bytes.len()];
    write_pairs(bytes, text);
    put_all(out, text)
}
