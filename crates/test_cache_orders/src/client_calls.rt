//! The calls of a step on a client's toolchains, on these and on the model.

use crate::answers::{Answer, Difference, agree, copied, denied};
use crate::names::Archive;
use crate::orders::{Call, Step};
use crate::plain_client::{PlainClient, WeakKey};
use disk_cache::{ClientToolchains, DistToolchainConfig};
use dist_types::text::{Bytes, Text};
use dist_types::toolchain::Toolchain;
use dist_types::toolchain_error::ToolchainError;
use folders::folder::Folder;
use path_pkg::mem_packager::MemPackager;
use std::alloc::{AllocError, Global};

/// The compiler that is not configured, the one with a configured archive, and the one that is to have none.
const PACKED: &str = "/cc";

const CHOSEN: &str = "/my/cc";

const BARE: &str = "/bare/cc";

/// The configured archive, and the compiler's path in it.
const CONFIGURED: &str = "ct1";

const INSIDE: &str = "/usr/bin/cc";

/// What a client is opened with.
pub fn configs(alloc: Global) -> Result<Vec<DistToolchainConfig>, AllocError> {
    let mut configs = Vec::new(alloc);
    configs.push(DistToolchainConfig::PathOverride {
        compiler_executable: Text::of(alloc, CHOSEN)?,
        archive: Text::of(alloc, CONFIGURED)?,
        archive_compiler_executable: Text::of(alloc, INSIDE)?,
    })?;
    configs.push(DistToolchainConfig::NoDist {
        compiler_executable: Text::of(alloc, BARE)?,
    })?;
    Ok(configs)
}

impl Step {
    fn weak_key(&self) -> WeakKey {
        if self.more % 2 == 0 {
            return WeakKey::First;
        }
        WeakKey::Second
    }

    // What is packed; none where the packager refuses.
    fn packed(&self) -> Option<Archive> {
        if !self.commits && self.other_commits {
            return None;
        }
        Some(self.archive())
    }
}

/// One step, on the toolchains and on the model.
pub fn act<F: Folder + Drop>(
    alloc: Global,
    client: &mut ClientToolchains<F>,
    plain: &mut PlainClient,
    step: &Step,
) -> Result<(), Difference> {
    let wanted = wanted(plain, step);
    match given(alloc, client, step) {
        Ok(given) => agree(given, wanted),
        Err(_) => Err(Difference::Memory),
    }
}

fn given<F: Folder + Drop>(
    alloc: Global,
    client: &mut ClientToolchains<F>,
    step: &Step,
) -> Result<Answer, AllocError> {
    let mut packager = packager(alloc, step.packed())?;
    match step.call {
        Call::Insert | Call::GetFile => Ok(get(client, step.archive())),
        Call::Get => Ok(custom(alloc, client, CHOSEN)),
        Call::GetAbsPath => Ok(put(alloc, client, CHOSEN, step, &mut packager)),
        Call::Remove => Ok(put(alloc, client, BARE, step, &mut packager)),
        _ => Ok(put(alloc, client, PACKED, step, &mut packager)),
    }
}

// A packager of an archive's bytes, or one that refuses its first call.
fn packager(alloc: Global, packed: Option<Archive>) -> Result<MemPackager, AllocError> {
    let mut refuses = Vec::new(alloc);
    let bytes = match packed {
        Some(archive) => Bytes::from_slice(alloc, archive.content().as_bytes())?,
        None => {
            refuses.push(0)?;
            Bytes::from_slice(alloc, &[])?
        }
    };
    Ok(MemPackager::new(alloc, bytes, refuses))
}

fn get<F: Folder + Drop>(client: &mut ClientToolchains<F>, archive: Archive) -> Answer {
    let Ok(tc) = Toolchain::new(archive.id()) else {
        return Answer::Absent;
    };
    match client.get_toolchain(&tc) {
        Ok(Some(bytes)) => Answer::Content(bytes),
        Ok(None) => Answer::Absent,
        Err(refusal) => denied(refusal),
    }
}

fn custom<F: Folder + Drop>(
    alloc: Global,
    client: &mut ClientToolchains<F>,
    compiler: &str,
) -> Answer {
    match client.get_custom_toolchain(compiler) {
        Some(Ok((tc, inside, archive))) => configured(
            alloc,
            &tc,
            inside.as_str(),
            archive.as_str(),
        ),
        Some(Err(refusal)) => denied(refusal),
        None => Answer::Absent,
    }
}

fn put<F: Folder + Drop>(
    alloc: Global,
    client: &mut ClientToolchains<F>,
    compiler: &str,
    step: &Step,
    packager: &mut MemPackager,
) -> Answer {
    match client.put_toolchain(compiler, step.weak_key().text(), packager) {
        Ok((tc, beside)) => placed(alloc, &tc, beside),
        Err(refusal) => denied(refusal),
    }
}

fn placed(alloc: Global, tc: &Toolchain, beside: Option<(String, String)>) -> Answer {
    match beside {
        Some((inside, archive)) => configured(alloc, tc, inside.as_str(), archive.as_str()),
        None => copied(Vec::from_slice(alloc, tc.archive_id().as_bytes())),
    }
}

// A configured archive, where it is told by its names.
fn configured(alloc: Global, tc: &Toolchain, inside: &str, archive: &str) -> Answer {
    if inside != INSIDE || archive != CONFIGURED {
        return Answer::Absent;
    }
    match Vec::from_slice(alloc, tc.archive_id().as_bytes()) {
        Ok(id) => Answer::Configured(id),
        Err(_) => Answer::Refused(lru_disk_cache::Error::Memory),
    }
}

fn wanted(plain: &mut PlainClient, step: &Step) -> Answer {
    match step.call {
        Call::Insert | Call::GetFile => plain.get(step.archive()),
        Call::Get | Call::GetAbsPath => plain.configured(),
        Call::Remove => Answer::Denied(ToolchainError::Disabled),
        _ => plain.put(step.weak_key(), step.packed()),
    }
}

/// The archives that are looked for behind the last opening.
const ALL: &[Archive] = &[
    Archive::Abc,
    Archive::Nothing,
    Archive::Digits,
    Archive::Dozen,
    Archive::Large,
];

/// What is listed agrees: each archive is found where the model finds it.
pub fn find_all<F: Folder + Drop>(
    client: &mut ClientToolchains<F>,
    plain: &mut PlainClient,
) -> Result<(), Difference> {
    for archive in ALL {
        let wanted = plain.get(*archive);
        agree(get(client, *archive), wanted)?;
    }
    Ok(())
}
