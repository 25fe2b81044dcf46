//! Serving all connections of one link.
ghost use Rattle.http_calls.specs.Urls.{IsHttp};

use crate::peer::{accepting, empty_server, scheduler_base, tested};
use crate::report::{write_left, write_reports, write_served};
use crate::stopped::Stopped;
use build_server::echo::EchoBuilder;
use build_server::keeping::Keeping;
use dist_token::job_token::JWTJobAuthorizer;
use dist_types::dialer::MemDialer;
use dist_types::link::Link;
use dist_types::sink::Sink;
use server_service::connection::serve_server_connection;
use std::alloc::Global;
use url::Url;

/// What the server shows to its scheduler.
const SHOWN: &str = "127.0.0.1:10501 s1";

/// Serves so many connections of a link, under the key 1, 2, 2, and tells of each.
fn serve_each<S: Keeping, L: Link, K: Sink>(
    alloc: Global,
    number: u64,
    state: &mut S,
    dialer: &mut MemDialer,
    base: &Url,
    link: &mut L,
    errs: &mut K,
) -> Result<(), Stopped>
    requires http { IsHttp base.now }
{
    let key = JWTJobAuthorizer::new(Vec::from_slice(alloc, &[1, 2, 2])?);
    let mut builder = EchoBuilder::new(alloc);
    for _ in 0..number {
        let served = serve_server_connection(
            alloc,
            state,
            &key,
            link,
            dialer,
            base,
            SHOWN,
            &mut builder,
        );
        write_served(alloc, errs, served, dialer.asked().len())?;
    }
    Ok(())
}

/// Serves so many connections of a link for a scheduler that accepts so many reports, and tells of each, of
/// what is left, and of all reports.
pub fn serve_all<L: Link, K: Sink>(
    alloc: Global,
    number: u64,
    accepted: u64,
    link: &mut L,
    errs: &mut K,
) -> Result<(), Stopped> {
    let base = scheduler_base(alloc)?;
    tested(&base)?;
    let mut state = empty_server(alloc)?;
    let mut dialer = accepting(alloc, accepted)?;
    serve_each(alloc, number, &mut state, &mut dialer, &base, link, errs)?;
    write_left(alloc, link, errs)?;
    write_reports(alloc, errs, dialer.asked())
}
