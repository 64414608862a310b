//! How long objects are.

use cerco_base::Fault;
use cerco_pipeline::compile;
use std::alloc::Global;

/// How many bytes of code the object of a text has.
pub fn code_length(alloc: Global, text: &[u8]) -> Result<usize, Fault> {
    let compiled = compile(alloc, text)?;
    Ok(compiled.code().len())
}
