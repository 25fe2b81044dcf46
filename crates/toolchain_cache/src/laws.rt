//! A law of caches of archives. The function does nothing.
ghost use Rattle.toolchain_cache.specs.Archiving.{ArchivesReopen};

/// Archives that are in step with the files of their folder, and that fit, are what an opening lists.
pub fn reopening_gives_the_archives()
    ensures { ArchivesReopen }
{}
