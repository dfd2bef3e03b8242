//! Streams of bytes: the source of a whole input, and the sink of a whole output.

pub(crate) mod sinks;
pub(crate) mod sources;
