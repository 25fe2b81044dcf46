//! Copies of setups. Each is refused for want of memory alone.
ghost use Rattle.std.specs.Prelude.{◌≡◌, drop, IfOk};
ghost use Rattle.farm_entries.specs.Sites.{site_server};
ghost use Rattle.farm_stations.specs.Left.{with_left};

use dist_types::fault::Memory;
use dist_types::text::Items;
use dist_types::toolchain::Toolchain;
use dist_types::try_clone::{TryClone, push};
use farm_entries::site::SiteServer;
use farm_script::setup::{BuilderLine, SetupAuth, SetupScheduler, SetupServer};
use std::alloc::Global;

fn copy_auth(auth: &SetupAuth) -> Result<SetupAuth, Memory>
    ensures { IfOk result (λ a. a ≡ auth.now) }
{
    match auth {
        SetupAuth::Plain(token) => {
            let token = token.clone()?;
            Ok(SetupAuth::Plain(token))
        }
        SetupAuth::Jwt(key) => {
            let key = key.clone()?;
            Ok(SetupAuth::Jwt(key))
        }
    }
}

/// A copy of a scheduler.
pub fn copy_scheduler(scheduler: &SetupScheduler) -> Result<SetupScheduler, Memory>
    ensures { IfOk result (λ s. s ≡ scheduler.now) }
{
    let client = scheduler.client.clone()?;
    let auth = copy_auth(&scheduler.auth)?;
    Ok(SetupScheduler {
        addr: scheduler.addr,
        base: scheduler.base,
        count: scheduler.count,
        client,
        auth,
    })
}

fn copy_line(line: &BuilderLine) -> Result<BuilderLine, Memory>
    ensures { IfOk result (λ l. l ≡ line.now) }
{
    match line {
        BuilderLine::Listed {
            code,
            stdout,
            stderr,
            outputs,
        } => {
            let stdout = stdout.clone()?;
            let stderr = stderr.clone()?;
            let outputs = outputs.clone()?;
            Ok(BuilderLine::Listed {
                code: *code,
                stdout,
                stderr,
                outputs,
            })
        }
        BuilderLine::Refuse => Ok(BuilderLine::Refuse),
    }
}

/// Copies of lines.
pub fn copy_lines(alloc: Global, lines: &[BuilderLine]) -> Result<Vec<BuilderLine>, Memory>
    ensures { IfOk result (λ v. v.items ≡ lines.now) }
{
    let mut copies = Vec::with_capacity(alloc, lines.len())?;
    for line in lines {
        let copy = copy_line(line)?;
        push(&mut copies, copy)?;
    }
    Ok(copies)
}

/// A copy of a server, with what its first opening found.
pub fn copy_server(
    alloc: Global,
    server: &SetupServer,
    found: Option<Items<(Toolchain, u64)>>,
) -> Result<SiteServer, Memory>
    ensures { IfOk result (λ s. s ≡ site_server found server.now) }
{
    let key = server.key.clone()?;
    let builder = copy_lines(alloc, server.builder.get())?;
    Ok(SiteServer {
        addr: server.addr,
        cpus: server.cpus,
        nonce: server.nonce,
        key,
        capacity: server.capacity,
        builder: Items::new(builder),
        found,
    })
}

/// The lines behind so many.
fn lines_behind(lines: &[BuilderLine], count: u64) -> &[BuilderLine]
    ensures { result.now ≡ drop count lines.now }
{
    let count = lines.len().min(count as usize);
    lines.split_at(count).1
}

/// A copy of a server whose builder has answered so many builds, with what an opening found.
pub fn copy_left(
    alloc: Global,
    server: &SiteServer,
    builds: u64,
    found: Option<Items<(Toolchain, u64)>>,
) -> Result<SiteServer, Memory>
    ensures { IfOk result (λ s. s ≡ with_left builds found server.now) }
{
    let key = server.key.clone()?;
    let builder = copy_lines(alloc, lines_behind(server.builder.get(), builds))?;
    Ok(SiteServer {
        addr: server.addr,
        cpus: server.cpus,
        nonce: server.nonce,
        key,
        capacity: server.capacity,
        builder: Items::new(builder),
        found,
    })
}
