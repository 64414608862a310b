//! The world outside the program: files and outputs, in memory and of the process, and whole texts in and out.

pub mod faults;
pub mod file_sink;
pub mod file_store;
pub mod host;
pub mod in_memory;
pub mod never_failing;
pub mod traits;
pub mod whole_files;
