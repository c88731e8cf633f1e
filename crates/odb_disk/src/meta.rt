//! The result of a stat.
/// The kind of what is at a path.
#[derive(Clone, Copy, Debug, PartialEq, Eq)]
pub enum Kind {
    File,
    Dir,
    Link,
}

/// The result of a stat of a path.
#[derive(Clone, Copy, Debug)]
pub struct Meta {
    pub kind: Kind,
    /// The number of the device.
    pub dev: u64,
    /// The inode number.
    pub ino: u64,
    /// The length of a file in bytes; else 0.
    pub len: u64,
    /// The time of a file; else 0. On a real disk, nanoseconds since 1970.
    pub time: u64,
}
