//! How a farm was set up, with what the openings of its servers' caches listed.
use dist_types::addr::Addr;
use dist_types::ids::ServerNonce;
use dist_types::rules::Rules;
use dist_types::text::{Bytes, Items};
use dist_types::toolchain::Toolchain;
use farm_script::setup::{BuilderLine, SetupScheduler};

/// A build server of a farm.
#[derive(Debug, Drop)]
pub struct SiteServer {
    pub addr: Addr,
    pub cpus: u64,
    pub nonce: ServerNonce,
    pub key: Bytes,
    /// How many bytes of archives it keeps.
    pub capacity: u64,
    /// What its builder answers in turn, where the farm made the builder.
    pub builder: Items<BuilderLine>,
    /// The archives that its cache had as the farm opened it, least recent first; none where that failed.
    pub found: Option<Items<(Toolchain, u64)>>,
}

/// A farm as it was set up.
#[derive(Debug, Drop)]
pub struct Site {
    /// The version of the scheduler's rules.
    pub rules: Rules,
    pub scheduler: SetupScheduler,
    /// In the order of the setup.
    pub servers: Items<SiteServer>,
}
