//! The far side of a mirror: the archives of a cache, by HTTP.
ghost use Rattle.mirror.specs.Caches.{told_of};
ghost use Rattle.mirror.specs.Routing.{Routes, Answers};

use crate::look::look;
use crate::question::id_asked;
use dist_types::fault::Memory;
use dist_types::toolchain::Toolchain;
use folders::folder::Folder;
use http_head::request::Request;
use http_routes::reply::Response;
use lru_disk_cache::Error;
use toolchain_cache::TcCache;

/// The reply with the archive of a toolchain, or 404.
fn answer<F: Folder>(cache: &mut TcCache<F>, tc: &Toolchain) -> Result<Response, Memory>
    ensures { Answers tc.now result (told_of F.held cache.old) (told_of F.held cache.new) }
{
    match look(cache, tc) {
        Ok(bytes) => Ok(Response::Binary(bytes)),
        Err(Error::Memory) => Err(Memory),
        Err(Error::FileNotInCache) => Ok(Response::NotFound),
        Err(Error::Io(_)) => Ok(Response::NotFound),
        Err(Error::FileTooLarge) => Ok(Response::NotFound),
        Err(Error::PendingSpace) => Ok(Response::NotFound),
        Err(Error::BadKey) => Ok(Response::NotFound),
        Err(Error::NotPending) => Ok(Response::NotFound),
        Err(Error::WrongDigest) => Ok(Response::NotFound),
        Err(Error::WriterRefused) => Ok(Response::NotFound),
    }
}

/// Answers a request over a cache: 200 with the bytes of an archive exactly where it is a GET of
/// `/api/v1/mirror/ID`, the archive of that id is listed, and it was read; else 404. The archive becomes the
/// most recent. Refused for want of memory alone.
pub fn mirror_route<F: Folder>(
    request: &Request,
    cache: &mut TcCache<F>,
) -> Result<Response, Memory>
    ensures routes { Routes request.now result (told_of F.held cache.old) (told_of F.held cache.new) }
{
    match id_asked(request) {
        Some(tc) => answer(cache, &tc),
        None => Ok(Response::NotFound),
    }
}
