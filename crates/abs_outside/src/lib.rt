//! The edge of the program: where its bytes come from and where they go.
//!
//! [`Source`] and [`Sink`] are all that the command knows of files and streams. Contracts cite what each of them tells:
//! its bytes, and counts of what failed. Two sources and two sinks work in memory, for tests and for callers that have
//! the bytes already. One source reads real files, and one sink writes to a real stream.
#![tactic(auto)]

mod call_options;
mod file_source;
mod memory_sink;
mod memory_source;
mod pure_sink;
mod pure_source;
mod sink;
mod source;
mod stream_sink;

pub use call_options::CallOptions;
pub use file_source::FileSource;
pub use memory_sink::MemorySink;
pub use memory_source::{MemorySource, NamedBytes};
pub use pure_sink::PureSink;
pub use pure_source::PureSource;
pub use sink::Sink;
pub use source::{Failed, Source};
pub use stream_sink::StreamSink;
