//! What a get gives.

/// The bytes of an archive, and where they were got.
#[derive(Debug, Drop)]
pub enum Got {
    /// The near cache had them.
    Near(Vec<u8>),
    /// The far side sent them, and their SHA-256 is the id; and whether they are now listed near.
    Fetched(Vec<u8>, bool),
}
