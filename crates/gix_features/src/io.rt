//! Bytes that go from one thread to another.
pub use gix_features_channel::pipe;
