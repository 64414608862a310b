//! What every crate of the compiler stands on: labels, ports and events, the reasons for which a
//! source is refused, the lists of an object, the order of calls, arithmetic of bytes, hexadecimal
//! digits, and the world outside the program with its files and outputs.
#![tactic(auto)]

pub mod bytes;
pub mod call_order;
pub mod events;
pub mod hex_digits;
pub mod limits;
pub mod no_memory;
pub mod object;
pub mod outside;
pub mod reasons;

pub use bytes::{add_carry, mul_wide, sub_borrow};
pub use call_order::CallOrder;
pub use events::{Event, FaultKind, Label, Port};
pub use hex_digits::{hex_digit, hex_word};
pub use no_memory::NoMemory;
pub use object::{Code, LabelList, StartBytes};
pub use outside::faults::{IoFault, ReadFault};
pub use outside::file_sink::FileSink;
pub use outside::host::{HostFiles, HostOut};
pub use outside::in_memory::{MemoryFiles, MemorySink};
pub use outside::never_failing::{SoundFiles, SoundSink};
pub use outside::traits::{Files, Sink};
pub use outside::whole_files::{put_all, read_whole, write_file};
pub use reasons::{Fault, NameKind, Reason, TypeKind};
