//! How a farm is set up: its rules, its scheduler, its build servers, and what their builders answer.
use dist_types::addr::Addr;
use dist_types::ids::ServerNonce;
use dist_types::rules::Rules;
use dist_types::text::{Bytes, Items, Text};

/// How build servers prove to the scheduler who they are.
#[derive(Debug, Drop)]
pub enum SetupAuth {
    /// One token for all of them.
    Plain(Text),
    /// A key, under which each has a token of its own.
    Jwt(Bytes),
}

/// The scheduler of a farm.
#[derive(Debug, Drop)]
pub struct SetupScheduler {
    pub addr: Addr,
    /// The id of the first job.
    pub base: u64,
    /// How many ids were given before.
    pub count: u64,
    /// The token of clients.
    pub client: Text,
    pub auth: SetupAuth,
}

/// The next answer of a builder.
#[derive(Debug, Drop)]
pub enum BuilderLine {
    Listed {
        code: i32,
        stdout: Bytes,
        stderr: Bytes,
        /// The name of each output and its bytes.
        outputs: Items<(Text, Bytes)>,
    },
    Refuse,
}

/// A build server of a farm.
#[derive(Debug, Drop)]
pub struct SetupServer {
    pub addr: Addr,
    pub cpus: u64,
    pub nonce: ServerNonce,
    pub key: Bytes,
    /// How many bytes of archives it keeps.
    pub capacity: u64,
    pub builder: Items<BuilderLine>,
}

/// A farm as its script sets it up.
#[derive(Debug, Drop)]
pub struct Setup {
    /// The version of the scheduler's rules.
    pub rules: Rules,
    pub scheduler: SetupScheduler,
    /// In the order of the script.
    pub servers: Items<SetupServer>,
}
