//! The limits of the compiler and of its program.

/// The most bytes of a source.
pub const SOURCE_BYTES: usize = 65_535;

/// The most bytes of any other file that is read.
pub const FILE_BYTES: usize = 16_777_216;

/// The most bytes of a name.
pub const NAME_BYTES: usize = 63;

/// The deepest nesting of each part of a source.
pub const NESTING: u32 = 64;

/// The greatest value of an integer constant.
pub const CONSTANT: u32 = 65_535;

/// The most bytes of the parameters of a function.
pub const PARAMETER_BYTES: u32 = 12;

/// The most functions on a path of calls.
pub const PATH_FUNCTIONS: u32 = 64;

/// The most bytes of external RAM that the variables of a program need.
pub const DATA_BYTES: u32 = 65_534;

/// The most cells of internal RAM that the local values of a program need.
pub const CELLS: u32 = 112;

/// The most bytes of an object.
pub const CODE_BYTES: usize = 65_536;

/// The most machine cycles of a run.
pub const RUN_CYCLES: u32 = 1_000_000_000;

/// The largest size of a generated sample.
pub const SAMPLE_SIZE: u32 = 64;
