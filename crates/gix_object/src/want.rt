//! What a look-up wants of an object: its kind and its data, its kind and its size, or whether it is there.

/// What a look-up wants of an object.
#[derive(Clone, Copy, Debug, PartialEq, Eq)]
pub enum Want {
    /// Its kind and its data.
    Object,
    /// Its kind and its size.
    Header,
    /// Whether it is there.
    Presence,
}
