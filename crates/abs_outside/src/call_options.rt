//! How the calls of a source or a sink over memory go: how many bytes one moves, and which calls fail.

/// What is chosen of the reads of a [`MemorySource`](crate::MemorySource) or the writes of a
/// [`MemorySink`](crate::MemorySink) when it is made.
#[derive(Debug, Drop)]
pub struct CallOptions {
    /// The most bytes that one call moves.
    pub most: usize,
    /// The numbers of the calls that fail. The first call has number 1.
    pub failing: Vec<u64>,
}
