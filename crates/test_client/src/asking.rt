//! A call of a client that has one toolchain, and whose dialer gives one reply or none.
use crate::calls::make;
use crate::fault::Fault;
use crate::words::{hex_of, packager, said};
use disk_cache::ClientToolchains;
use disk_cache::folder::Folder;
use disk_cache::reliable_folder::ReliableFolder;
use dist_types::dialer::{Asked, MemDialer};
use dist_types::text::Bytes;
use http_calls::calls::Client;
use http_calls::http;
use std::alloc::Global;
use url::Url;

/// The clients' token.
const CLIENT: &str = "c1";

/// The most bytes of all archives.
const CAPACITY: u64 = 1000;

/// A call, its word, and the scheduler's URL.
#[derive(Clone, Copy)]
pub(crate) struct Call<'a> {
    pub name: &'a str,
    pub word: &'a str,
    pub base: &'a str,
}

/// What came of a call, and the dialer with its record.
#[derive(Drop)]
pub(crate) struct Outcome {
    said: String,
    dialer: MemDialer,
}

/// Toolchains over a folder.
fn opened<F: Folder + Drop>(alloc: Global, folder: F) -> Result<ClientToolchains<F>, Fault> {
    match ClientToolchains::new(alloc, folder, "c", CAPACITY, &[]) {
        Ok(toolchains) => Ok(toolchains),
        Err(_) => Err(Fault::NoToolchain),
    }
}

fn url_of(alloc: Global, base: &str) -> Result<Url, Fault> {
    match Url::parse(alloc, base) {
        Ok(url) => Ok(url),
        Err(_) => Err(Fault::BadRow),
    }
}

/// A client over a folder, whose dialer gives these replies.
fn client_of<F: Folder + Drop>(
    alloc: Global,
    folder: F,
    base: &str,
    replies: Vec<Bytes>,
) -> Result<http::Client<MemDialer, F>, Fault> {
    let url = url_of(alloc, base)?;
    let token = String::from_str(alloc, CLIENT)?;
    let toolchains = opened(alloc, folder)?;
    let dialer = MemDialer::new(alloc, replies, Vec::new(alloc));
    Ok(http::Client::new(alloc, dialer, toolchains, url, token, false))
}

/// Puts a toolchain whose archive is `abc`.
fn put<C: Client>(alloc: Global, client: &mut C) -> Result<(), Fault> {
    let mut packs = packager(alloc, "616263")?;
    match client.put_toolchain("/cc", "weak", &mut packs) {
        Ok(_placed) => Ok(()),
        Err(_) => Err(Fault::NoToolchain),
    }
}

/// Has a client with one toolchain make a call.
fn ask<C: Client>(alloc: Global, client: &mut C, call: Call<'_>) -> Result<String, Fault> {
    put(alloc, client)?;
    make(alloc, client, call.name, call.word)
}

/// The dialer of a client, whose toolchains are dropped.
fn dialer_of<F: Folder + Drop>(client: http::Client<MemDialer, F>) -> MemDialer {
    let (dialer, _toolchains) = client.into_parts();
    dialer
}

/// What came of a call, beside the dialer.
fn beside(said: Result<String, Fault>, dialer: MemDialer) -> Result<Outcome, Fault> {
    match said {
        Ok(said) => Ok(Outcome { said, dialer }),
        Err(fault) => Err(fault),
    }
}

/// Has a client over a folder make a call.
fn ask_over<F: Folder + Drop>(
    alloc: Global,
    folder: F,
    call: Call<'_>,
    replies: Vec<Bytes>,
) -> Result<Outcome, Fault> {
    let mut client = client_of(alloc, folder, call.base, replies)?;
    let said = ask(alloc, &mut client, call);
    beside(said, dialer_of(client))
}

/// Has a new client make a call, whose dialer gives that reply or none.
pub(crate) fn outcome_of(
    alloc: Global,
    call: Call<'_>,
    reply: Option<Vec<u8>>,
) -> Result<Outcome, Fault> {
    let mut replies = Vec::new(alloc);
    if let Some(bytes) = reply {
        replies.push(Bytes::new(bytes))?;
    }
    ask_over(alloc, ReliableFolder::new(alloc), call, replies)
}

/// Whom the dialer was asked for, at which port, and how.
fn row_told(alloc: Global, row: &Asked) -> Result<String, Fault> {
    let word = hex_of(alloc, row.request.get())?;
    let host = row.host.get();
    let port = row.port;
    Ok(format!(in alloc; "\n{host} {port} {word}")?)
}

impl Outcome {
    /// How often the dialer was asked, and what came of the call.
    pub(crate) fn answer(&self, alloc: Global) -> Result<String, Fault> {
        let rows = self.dialer.asked().len();
        let said = self.said.as_str();
        Ok(format!(in alloc; "{rows} {said}")?)
    }

    /// The same, and each row of the dialer's record.
    pub(crate) fn requests(&self, alloc: Global) -> Result<String, Fault> {
        let mut told = self.answer(alloc)?;
        for row in self.dialer.asked() {
            let line = row_told(alloc, row)?;
            told.push_str(line.as_str())?;
        }
        Ok(told)
    }
}
