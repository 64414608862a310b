//! The text of the addresses of an object's labels.
ghost use Rattle.std.specs.Prelude.{◌≡◌};
ghost use Rattle.cerco_base.specs.Outside.IoCalls.{PutsText};
ghost use Rattle.object_hex.specs.MapText.{label_line, map_text};

use crate::digits::put_pairs;
use cerco_base::{IoFault, Sink, put_all};
use itoa::Buffer;

// Puts the line of a label.
fn put_label<O: Sink>(label: usize, address: u16, out: &mut O) -> Result<(), IoFault>
    ensures { PutsText (O.state out.old) (O.state out.new) (label_line label address) result }
{
    let mut digits = Buffer::new();
    put_all(out, digits.format(label).as_bytes())?;
    put_all(out, b" ")?;
    put_pairs(&[(address / 256) as u8, (address % 256) as u8], out)?;
    put_all(out, b"\n")
}

/// Puts the text of the addresses of labels: for each label a line with its number, counted from
/// 0, and its address. It takes no memory but through the output.
///
/// # Errors
///
/// The fault of the output. A prefix of the text was put then.
pub fn write_map<O: Sink>(labels: &[u16], out: &mut O) -> Result<(), IoFault>
    ensures { PutsText (O.state out.old) (O.state out.new) (map_text labels.now) result }
{
    for (label, address) in labels.iter().enumerate() {
        put_label(label, *address, out)?;
    }
    Ok(())
}
