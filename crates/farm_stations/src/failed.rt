//! Whether a server's folder failed in what was done.
ghost use Rattle.std.specs.Prelude.{◌≡◌, false};
ghost use Rattle.farm_entries.specs.Weather.{failed_after_submit, failed_after_run};
ghost use Rattle.farm_stations.specs.Post.{is_io};

use build_server::run::Ran;
use build_server::submit::Submitted;
use lru_disk_cache::Error;

/// Whether the folder failed in a submission.
pub(crate) fn broke(outcome: &Submitted) -> bool
    ensures { result ≡ failed_after_submit outcome.now false }
{
    match outcome {
        Submitted::None => false,
        Submitted::Listed => false,
        Submitted::Stored(_, _) => false,
        Submitted::Digest => false,
        Submitted::Capacity => false,
        Submitted::Folder(_) => true,
    }
}

/// Whether the folder failed in a run.
pub(crate) fn broke_in(ran: Ran) -> bool
    ensures { result ≡ failed_after_run ran false }
{
    match ran {
        Ran::None => false,
        Ran::Unlisted(_) => false,
        Ran::Folder(_) => true,
        Ran::Built(_) => false,
        Ran::Refused(_) => false,
    }
}

/// Whether an opening failed by its folder.
pub(crate) fn is_io(error: &Error) -> bool
    ensures io { result ≡ is_io error.now }
{
    match error {
        Error::Io(_) => true,
        Error::Memory => false,
        Error::FileTooLarge => false,
        Error::FileNotInCache => false,
        Error::PendingSpace => false,
        Error::BadKey => false,
        Error::NotPending => false,
        Error::WrongDigest => false,
        Error::WriterRefused => false,
    }
}
