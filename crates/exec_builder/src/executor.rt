//! The executor that a builder asks.

use dist_types::text::Text;

/// Where an executor listens, and the secret that it wants to be shown.
#[derive(Debug, Drop)]
pub struct Executor {
    /// The host's name or its IP.
    pub host: Text,
    /// The port.
    pub port: u16,
    /// The secret.
    pub secret: Text,
}
