//! Laws of disk caches. The functions do nothing.
ghost use Rattle.listed_files.specs.Opened.{Reopens};
ghost use Rattle.lru_disk_cache.specs.Reliable.{NeverFails, FailsToMove, FailsUnsure};
ghost use Rattle.lru_disk_cache.specs.Reserved.{GivesBack};

/// A list that is in step with the files of its folder, and that fits, is what an opening lists.
pub fn reopening_gives_the_list()
    ensures { Reopens }
{}

/// Closing the reservation of a pending entry gives its size back: the numbers of reservations differ.
pub fn closing_gives_the_size_back()
    ensures { GivesBack }
{}

/// Over a folder that never fails, no call of a cache answers `Error::Io`, but with `FolderFault::Missing`:
/// `insert_file` where there is no such file, and `write_entry` and `commit` where a commit of the entry
/// failed before, for want of memory, and its file is not there.
pub fn reliable_folders_never_fail()
    ensures never { NeverFails }
    ensures moved { FailsToMove }
    ensures sure { FailsUnsure }
{}
