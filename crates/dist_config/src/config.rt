//! The configurations, as their files say them.
ghost use Rattle.std.specs.Prelude.{◌≡◌, IfOk};

use dist_types::addr::Addr;
use dist_types::fault::Memory;
use dist_types::rules::Rules;
use dist_types::text::Text;
use dist_types::try_clone::TryClone;
use url::Url;

/// How a scheduler tells which clients it lets in.
#[derive(Debug, Drop)]
pub enum ClientAuth {
    /// By the token that everybody knows.
    Insecure,
    /// By one shared token.
    Token {
        /// That token.
        token: Text,
    },
    /// By asking a peer with the client's token.
    ProxyToken {
        /// Where it is asked; its scheme is `http`.
        url: Url,
        /// For so many seconds a token that was accepted is accepted without asking; none is kept without it.
        cache_secs: Option<u64>,
    },
}

/// How a scheduler tells which build servers it listens to.
#[derive(Debug, Drop)]
pub enum ServerAuth {
    /// By the token that everybody knows.
    Insecure,
    /// By one shared token.
    Token {
        /// That token.
        token: Text,
    },
    /// By tokens that are signed with HMAC-SHA256.
    JwtHS256 {
        /// The key of 32 bytes, in base64url.
        secret_key: Text,
    },
}

/// What a scheduler is started with.
#[derive(Debug, Drop)]
pub struct SchedulerConfig {
    /// Where it listens.
    pub public_addr: Addr,
    /// How it tells clients.
    pub client_auth: ClientAuth,
    /// How it tells build servers.
    pub server_auth: ServerAuth,
    /// The version of the rules that it goes by.
    pub rules: Rules,
}

/// What a build server is started with.
#[derive(Debug, Drop)]
pub struct ServerConfig {
    /// The folder of its cache of toolchains.
    pub cache_dir: Text,
    /// Where the scheduler's clients reach it.
    pub public_addr: Addr,
    /// Where it listens.
    pub bind_address: Addr,
    /// The scheduler; its scheme is `http`.
    pub scheduler_url: Url,
    /// The token that it shows to the scheduler.
    pub scheduler_auth: Text,
    /// The capacity of its cache of toolchains, in bytes.
    pub toolchain_cache_size: u64,
}

/// A copy of a URL. Refused for want of memory alone.
fn copy_of(url: &Url) -> Result<Url, Memory>
    ensures { IfOk result (λ copy. copy ≡ url.now) }
{
    match url.clone() {
        Ok(copy) => Ok(copy),
        Err(_) => Err(Memory),
    }
}

impl TryClone for ClientAuth {
    fn clone(&self) -> Result<Self, Memory> {
        match self {
            ClientAuth::Insecure => Ok(ClientAuth::Insecure),
            ClientAuth::Token { token } => {
                let token = token.clone()?;
                Ok(ClientAuth::Token { token })
            }
            ClientAuth::ProxyToken { url, cache_secs } => {
                let url = copy_of(url)?;
                Ok(ClientAuth::ProxyToken {
                    url,
                    cache_secs: *cache_secs,
                })
            }
        }
    }
}

impl TryClone for ServerAuth {
    fn clone(&self) -> Result<Self, Memory> {
        match self {
            ServerAuth::Insecure => Ok(ServerAuth::Insecure),
            ServerAuth::Token { token } => {
                let token = token.clone()?;
                Ok(ServerAuth::Token { token })
            }
            ServerAuth::JwtHS256 { secret_key } => {
                let secret_key = secret_key.clone()?;
                Ok(ServerAuth::JwtHS256 { secret_key })
            }
        }
    }
}

impl TryClone for SchedulerConfig {
    fn clone(&self) -> Result<Self, Memory> {
        let client_auth = self.client_auth.clone()?;
        let server_auth = self.server_auth.clone()?;
        Ok(SchedulerConfig {
            public_addr: self.public_addr,
            client_auth,
            server_auth,
            rules: self.rules,
        })
    }
}

impl TryClone for ServerConfig {
    fn clone(&self) -> Result<Self, Memory> {
        let cache_dir = self.cache_dir.clone()?;
        let scheduler_url = copy_of(&self.scheduler_url)?;
        let scheduler_auth = self.scheduler_auth.clone()?;
        Ok(ServerConfig {
            cache_dir,
            public_addr: self.public_addr,
            bind_address: self.bind_address,
            scheduler_url,
            scheduler_auth,
            toolchain_cache_size: self.toolchain_cache_size,
        })
    }
}
