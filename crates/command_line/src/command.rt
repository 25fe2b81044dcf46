//! The commands.

use dist_config::config::{SchedulerConfig, ServerConfig};
use dist_types::ids::ServerId;
use dist_types::text::Text;

/// What is made for an authority.
#[derive(Debug, PartialEq, Eq, Drop)]
pub enum AuthSubcommand {
    /// So many random bytes, in base64url.
    Base64 {
        /// How many bytes.
        num_bytes: usize,
    },
    /// The signed token of a build server.
    JwtHS256ServerToken {
        /// The key, in base64url.
        secret_key: Text,
        /// The server.
        server_id: ServerId,
    },
}

/// What a command line asks for.
#[derive(Debug, Drop)]
pub enum Command {
    /// A token or a key.
    Auth(AuthSubcommand),
    /// A scheduler of this configuration.
    Scheduler(SchedulerConfig),
    /// A build server of this configuration.
    Server(ServerConfig),
    /// The run of a script.
    Farm,
    /// The storm of so many events.
    Storm(u64),
    /// The audit of a printed run.
    Audit,
}
