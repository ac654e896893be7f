//! Takes bytes from a source and writes output to a sink.

pub mod read;
pub mod write;
