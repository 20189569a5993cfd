//! Where a command's input comes from and where its output goes.
//!
//! A failed reading or writing comes only if the source's or the sink's own count rose, or if a sink took nothing of a
//! piece that isn't empty. The bytes read and written are said exactly, if they are known of source and sink.
#![tactic(auto)]

mod faults;
mod memory_sink;
mod memory_source;
mod planned_failures;
mod reading;
mod sink;
mod source;
mod standard;
mod writing;

pub use faults::{Failed, ReadFault, WriteFault};
pub use memory_sink::MemorySink;
pub use memory_source::MemorySource;
pub use planned_failures::fails_next;
pub use reading::{MOST_BYTES, read_all};
pub use sink::Sink;
pub use source::Source;
pub use standard::{StdSink, StdSource};
pub use writing::write_all;
