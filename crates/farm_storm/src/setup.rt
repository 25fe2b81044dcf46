//! How the storm's farm is set up.
ghost use Rattle.std.specs.Prelude.{◌≡◌, IfOk, map};
ghost use Rattle.std.specs.List.{range_with_len};
ghost use Rattle.farm_storm.specs.Storm.{local, scheduler_addr, server_addr, peer, storm_server, storm_setup};

use dist_types::addr::Addr;
use dist_types::fault::Memory;
use dist_types::ids::ServerNonce;
use dist_types::rules::Rules;
use dist_types::text::{Bytes, Items, Text};
use dist_types::try_clone::push;
use farm_script::setup::{Setup, SetupAuth, SetupScheduler, SetupServer};
use std::alloc::Global;

/// The token of clients.
pub const CLIENT_TOKEN: &str = "c1";

/// The token of build servers.
const SERVER_TOKEN: &str = "s1";

/// The key of each build server.
pub const SERVER_KEY: &[u8] = &[1];

/// How many bytes of archives each build server keeps.
const CAPACITY_BYTES: u64 = 64;

/// How many build servers there are.
const NUM_SERVERS: u64 = 8;

/// The scheduler's address.
pub fn scheduler_addr() -> Addr
    ensures { result ≡ scheduler_addr }
{
    Addr::V4([127, 0, 0, 1], 10600)
}

/// The address of the build server of that number, and of the server of that job.
pub fn server_addr(number: u64) -> Addr
    ensures { result ≡ server_addr number }
{
    Addr::V4([127, 0, 0, 1], 20001 + (number % NUM_SERVERS) as u16)
}

/// Who sends requests.
pub fn peer() -> Addr
    ensures { result ≡ peer }
{
    Addr::V4([127, 0, 0, 1], 40000)
}

/// The build server of that number.
fn storm_server(alloc: Global, number: u64) -> Result<SetupServer, Memory>
    ensures { IfOk result (λ s. s ≡ storm_server number) }
{
    let key = Bytes::from_slice(alloc, SERVER_KEY)?;
    Ok(SetupServer {
        addr: server_addr(number),
        cpus: 1,
        nonce: ServerNonce::new(1),
        key,
        capacity: CAPACITY_BYTES,
        builder: Items::new(Vec::new(alloc)),
    })
}

/// The build servers.
fn storm_servers(alloc: Global) -> Result<Vec<SetupServer>, Memory>
    ensures { IfOk result (λ v. v.items ≡ map storm_server (range_with_len 0 8)) }
{
    let mut servers = Vec::with_capacity(alloc, NUM_SERVERS as usize)?;
    for number in 0..NUM_SERVERS {
        let server = storm_server(alloc, number)?;
        push(&mut servers, server)?;
    }
    Ok(servers)
}

/// How the farm is set up, by version 1 of the rules. Refused for want of memory alone.
#[tactic(auto, unfolding(crate::specs::Storm::storm_setup))]
pub fn storm_setup(alloc: Global) -> Result<Setup, Memory>
    ensures { IfOk result (λ setup. setup ≡ storm_setup) }
{
    let client = Text::of(alloc, CLIENT_TOKEN)?;
    let token = Text::of(alloc, SERVER_TOKEN)?;
    let servers = storm_servers(alloc)?;
    Ok(Setup {
        rules: Rules::One,
        scheduler: SetupScheduler {
            addr: scheduler_addr(),
            base: 0,
            count: 0,
            client,
            auth: SetupAuth::Plain(token),
        },
        servers: Items::new(servers),
    })
}
