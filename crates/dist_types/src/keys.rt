//! Values that are keys: `==`, the order and the hash of each are those of what it shows.
ghost use Rattle.std.specs.Prelude.{◌≡◌, ◌↔◌, IsTrue, fold};
ghost use Rattle.dist_types.specs.Addr.{same_addr};
ghost use Rattle.dist_types.specs.Keys.{addr_order, addr_writes, same_ip, ip_order, ip_writes, text_order};
ghost use Rattle.dist_types.specs.Keys.{text_writes, same_text, number_writes};
ghost use Rattle.std.specs.Ordering.{nat_cmp};

use crate::addr::{Addr, Ip};
use crate::ids::{JobId, ServerId};
use crate::toolchain::Toolchain;
use std::cmp::Ordering;
use std::hash::{Hash, Hasher};

/// Whether two servers are one, as `==` answers: where their addresses are.
pub fn same_server(a: &ServerId, b: &ServerId) -> bool
    ensures same { result ≡ same_addr a.now b.now }
    ensures equal { IsTrue result ↔ (a.now ≡ b.now) }
{
    a == b
}

/// The order of addresses: four octets before eight groups, then octet by octet or group by group, then
/// the port.
pub fn addr_order(a: &Addr, b: &Addr) -> Ordering
    ensures order { result ≡ addr_order a.now b.now }
{
    a.cmp(b)
}

/// The order of servers is that of their addresses.
pub fn server_order(a: &ServerId, b: &ServerId) -> Ordering
    ensures order { result ≡ addr_order a.now b.now }
{
    a.cmp(b)
}

/// What an address feeds a hash.
pub fn hash_addr<H: Hasher>(addr: &Addr, state: &mut H)
    ensures fed { state.new ≡ fold H.write state.old (addr_writes addr.now) }
{
    addr.hash(state);
}

/// A server feeds a hash what its address does.
pub fn hash_server<H: Hasher>(server: &ServerId, state: &mut H)
    ensures fed { state.new ≡ fold H.write state.old (addr_writes server.now) }
{
    server.hash(state);
}

/// Whether two jobs are one, as `==` answers: where their numbers are.
pub fn same_job(a: &JobId, b: &JobId) -> bool
    ensures equal { IsTrue result ↔ (a.now.0 ≡ b.now.0) }
{
    a == b
}

/// The order of jobs is that of their numbers.
pub fn job_order(a: &JobId, b: &JobId) -> Ordering
    ensures order { result ≡ nat_cmp a.now.0 b.now.0 }
{
    a.cmp(b)
}

/// A job feeds a hash its number.
pub fn hash_job<H: Hasher>(job: &JobId, state: &mut H)
    ensures fed { state.new ≡ fold H.write state.old (number_writes job.now.0) }
{
    job.hash(state);
}

/// Whether two toolchains are one, as `==` answers: where their ids are.
pub fn same_toolchain(a: &Toolchain, b: &Toolchain) -> bool
    ensures same { result ≡ same_text a.now b.now }
    ensures equal { IsTrue result ↔ (a.now ≡ b.now) }
{
    a == b
}

/// The order of toolchains is that of their ids, byte by byte.
pub fn toolchain_order(a: &Toolchain, b: &Toolchain) -> Ordering
    ensures order { result ≡ text_order a.now b.now }
{
    a.cmp(b)
}

/// A toolchain feeds a hash its id.
pub fn hash_toolchain<H: Hasher>(toolchain: &Toolchain, state: &mut H)
    ensures fed { state.new ≡ fold H.write state.old (text_writes toolchain.now) }
{
    toolchain.hash(state);
}

/// Whether two addresses without a port are one, as `==` answers.
pub fn same_ip(a: &Ip, b: &Ip) -> bool
    ensures same { result ≡ same_ip a.now b.now }
    ensures equal { IsTrue result ↔ (a.now ≡ b.now) }
{
    a == b
}

/// Their order: four octets before eight groups, then octet by octet or group by group.
pub fn ip_order(a: &Ip, b: &Ip) -> Ordering
    ensures order { result ≡ ip_order a.now b.now }
{
    a.cmp(b)
}

/// What an address without a port feeds a hash.
pub fn hash_ip<H: Hasher>(ip: &Ip, state: &mut H)
    ensures fed { state.new ≡ fold H.write state.old (ip_writes ip.now) }
{
    ip.hash(state);
}
