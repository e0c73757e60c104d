//! The edge to the outside: stores and sinks that count their faults, and numbers as decimal text; and the words, lists,
//! places and kinds that every layer is written with.
#![tactic(auto)]

mod file_store;
mod files;
mod laws;
mod mem_sink;
mod mem_store;
mod number;
mod sink;
mod store;
mod stream_sink;
mod sure_sink;
mod sure_store;

pub use file_store::FileStore;
pub use iv_words::{Box, Copied, IntKind, Memory, Name, Seq, Span, Word, line_of};
pub use laws::{adds_both, counts_both, part_of_first, part_of_second};
pub use mem_sink::MemSink;
pub use mem_store::MemStore;
pub use number::{put_number, read_number};
pub use sink::{Sink, SinkFault};
pub use store::{File, LoadFault, Store};
pub use stream_sink::StreamSink;
pub use sure_sink::SureSink;
pub use sure_store::SureStore;
