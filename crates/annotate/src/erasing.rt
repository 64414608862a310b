//! The text without its annotations.
ghost use Rattle.cerco_base.specs.Outside.IoCalls.{PutsText};
ghost use Rattle.annotate.specs.Erasure.{erased};

use crate::cuts::first_annotation;
use cerco_base::{IoFault, Sink, put_all};

/// Puts a text without its annotations: what stands between a mark `/*@*/` and the next one is left
/// out, and so are the marks. It takes no memory but through the output.
///
/// # Errors
///
/// The fault of the output. A prefix of the text was put then.
pub fn erase<O: Sink>(text: &[u8], out: &mut O) -> Result<(), IoFault>
    ensures { PutsText (O.state out.old) (O.state out.new) (erased text.now) result }
{
    let mut rest = text;
    while let Some(cut) = first_annotation(rest) {
        put_all(out, cut.plain)?;
        rest = cut.rest;
    }
    put_all(out, rest)
}
