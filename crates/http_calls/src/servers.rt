//! The URLs of a server's routes.
ghost use Rattle.std.specs.Prelude.{◌≡◌, ◌++◌, [], ◌∷◌, Some, None, Ok, IfOk, IfErr, codes};
ghost use Rattle.std.specs.Fmt.{decimal};
ghost use Rattle.url.specs.declared.host.Host.TheVariants.{Ipv4};
ghost use Rattle.url.specs.Setters.{ip_host, set_ip_host, set_port, set_path};
ghost use Rattle.http_calls.specs.Servers.{host_at, port_at, http_url, server_url};
ghost use Rattle.http_calls.specs.Urls.{IsAbsolutePath};

use dist_types::addr::Addr;
use dist_types::ids::{JobId, ServerId};
use http_head::error::HttpError;
use std::alloc::Global;
use std::net::IpAddr;
use url::Url;

#[tactic(auto, using(crate::proofs::ServerLemmas::v4_host, crate::proofs::ServerLemmas::v6_host))]
fn ip_of(addr: Addr) -> IpAddr
    ensures { ip_host result ≡ host_at addr }
{
    match addr {
        Addr::V4(octets, _) => IpAddr::from(octets),
        Addr::V6(groups, _) => IpAddr::from(groups),
    }
}

/// The port of an address.
pub(crate) fn port_of(addr: Addr) -> u16
    ensures { result ≡ port_at addr }
{
    match addr {
        Addr::V4(_, port) => port,
        Addr::V6(_, port) => port,
    }
}

/// A URL of some host.
#[tactic(auto, using(crate::proofs::ServerLemmas::started))]
fn somewhere(alloc: Global) -> Result<Url, HttpError>
    ensures ok { IfOk result (λ url. url
        ≡ http_url (Ipv4 (record { octets = 0 ∷ 0 ∷ 0 ∷ 0 ∷ [] })) None (codes "/")) }
    ensures err { IfErr result (λ e. e ≡ HttpError.Memory) }
{
    match Url::parse(alloc, "http://0.0.0.0/") {
        Ok(url) => Ok(url),
        Err(_) => Err(HttpError::Memory),
    }
}

/// The same URL at another host.
fn at_ip(url: Url, ip: IpAddr) -> Result<Url, HttpError>
    ensures ok { IfOk result (λ new. set_ip_host url ip ≡ Ok new) }
    ensures err { IfErr result (λ e. e ≡ HttpError.Memory) }
{
    let mut url = url;
    match url.set_ip_host(ip) {
        Ok(()) => Ok(url),
        Err(_) => Err(HttpError::Memory),
    }
}

/// The same URL at another port.
fn at_port(url: Url, port: u16) -> Result<Url, HttpError>
    ensures ok { IfOk result (λ new. set_port url (Some port) ≡ Ok new) }
    ensures err { IfErr result (λ e. e ≡ HttpError.Memory) }
{
    let mut url = url;
    match url.set_port(Some(port)) {
        Ok(()) => Ok(url),
        Err(_) => Err(HttpError::Memory),
    }
}

/// The same URL at another path.
fn at_path(url: Url, path: &str) -> Result<Url, HttpError>
    ensures ok { IfOk result (λ new. new ≡ set_path url path.now) }
    ensures err { IfErr result (λ e. e ≡ HttpError.Memory) }
{
    let mut url = url;
    match url.set_path(path) {
        Ok(()) => Ok(url),
        Err(_) => Err(HttpError::Memory),
    }
}

/// The URL of a path at a server. Refused for want of memory alone.
#[tactic(auto, using(crate::proofs::ServerLemmas::placed))]
fn at_server(alloc: Global, server: Addr, path: &str) -> Result<Url, HttpError>
    requires { IsAbsolutePath path.now }
    ensures ok { IfOk result (λ url. url ≡ server_url server path.now) }
    ensures err { IfErr result (λ e. e ≡ HttpError.Memory) }
{
    let url = somewhere(alloc)?;
    let url = at_ip(url, ip_of(server))?;
    let url = at_port(url, port_of(server))?;
    let url = at_path(url, path)?;
    Ok(url)
}

/// Where a server is asked to take a job. Refused for want of memory alone.
pub fn server_assign_job(alloc: Global, server_id: ServerId, job: JobId) -> Result<Url, HttpError>
    ensures ok { IfOk result (λ url. url
        ≡ server_url server_id (codes "/api/v1/distserver/assign_job/" ++ decimal job.0)) }
    ensures err { IfErr result (λ e. e ≡ HttpError.Memory) }
{
    let path = format!(in alloc; "/api/v1/distserver/assign_job/{job}")?;
    let url = at_server(alloc, server_id.addr(), &path)?;
    Ok(url)
}

/// Where a server is brought a job's toolchain. Refused for want of memory alone.
pub fn server_submit_toolchain(
    alloc: Global,
    server_id: ServerId,
    job: JobId,
) -> Result<Url, HttpError>
    ensures ok { IfOk result (λ url. url
        ≡ server_url server_id (codes "/api/v1/distserver/submit_toolchain/" ++ decimal job.0)) }
    ensures err { IfErr result (λ e. e ≡ HttpError.Memory) }
{
    let path = format!(in alloc; "/api/v1/distserver/submit_toolchain/{job}")?;
    let url = at_server(alloc, server_id.addr(), &path)?;
    Ok(url)
}

/// Where a server is asked to run a job. Refused for want of memory alone.
pub fn server_run_job(alloc: Global, server_id: ServerId, job: JobId) -> Result<Url, HttpError>
    ensures ok { IfOk result (λ url. url
        ≡ server_url server_id (codes "/api/v1/distserver/run_job/" ++ decimal job.0)) }
    ensures err { IfErr result (λ e. e ≡ HttpError.Memory) }
{
    let path = format!(in alloc; "/api/v1/distserver/run_job/{job}")?;
    let url = at_server(alloc, server_id.addr(), &path)?;
    Ok(url)
}
