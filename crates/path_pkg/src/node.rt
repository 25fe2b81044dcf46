//! What stands at a path.
use dist_types::text::{Bytes, Text};

/// The kind of what stands at a path.
#[derive(Clone, Copy, Debug, PartialEq, Eq)]
pub enum Kind {
    /// A directory.
    Dir,
    /// A file.
    File,
    /// A symbolic link.
    Link,
    /// Anything else, as a device.
    Other,
    /// Nothing.
    None,
}

/// What stands at a path of a tree in memory.
#[derive(Debug, Drop)]
pub enum Node {
    /// A directory.
    Dir,
    /// A file with its content.
    File(Bytes),
    /// A symbolic link with its target.
    Link(Text),
    /// Anything else, as a device.
    Other,
}
