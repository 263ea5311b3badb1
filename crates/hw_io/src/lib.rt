//! The outside world of the tool: files that are read and written by name, and a sink for what is
//! printed. Both are traits; each has one form in memory and one that is the real thing.
#![tactic(auto)]

mod answers;
mod counts;
mod dir_store;
mod faults;
mod file_fault;
mod mem_file;
mod mem_sink;
mod mem_store;
mod out_sink;
mod reading;
mod sink;
mod store;
mod writing;

pub use answers::{ReadAnswer, WriteAnswer};
pub use dir_store::DirStore;
pub use faults::{SinkFault, WriteFault};
pub use mem_file::MemFile;
pub use mem_sink::MemSink;
pub use mem_store::MemStore;
pub use out_sink::OutSink;
pub use sink::Sink;
pub use store::Store;
pub use writing::write_all;
