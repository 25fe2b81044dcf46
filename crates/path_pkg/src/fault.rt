//! The refusals of trees, of packing and of packagers.
use dist_types::fault::Failed;
use std::alloc::AllocError;
use thiserror::Error;

/// Why a tree gave no answer.
#[derive(Clone, Copy, Debug, PartialEq, Eq, Error)]
pub enum TreeFault {
    /// The tree failed, and its count of faults rose.
    #[error("tree fault")]
    Failed,
    /// A name or the target of a link is not UTF-8, and the count of such names rose.
    #[error("name is not UTF-8")]
    NotUtf8,
    /// Memory ran out.
    #[error("out of memory")]
    Memory,
}

impl From<Failed> for TreeFault {
    ghost use Rattle.std.specs.Prelude.{◌≡◌};
    ghost use Rattle.path_pkg.specs.declared.fault.TreeFault.TheVariants as Faults;

    ghost from_gives = { λ _ e. e ≡ Faults.Failed };

    fn from(_: Failed) -> Self {
        TreeFault::Failed
    }
}

impl From<AllocError> for TreeFault {
    ghost use Rattle.std.specs.Prelude.{◌≡◌};
    ghost use Rattle.path_pkg.specs.declared.fault.TreeFault.TheVariants.{Memory};

    ghost from_gives = { λ _ e. e ≡ Memory };

    fn from(_: AllocError) -> Self {
        TreeFault::Memory
    }
}

/// Why a path was not simplified or a package not made.
#[derive(Clone, Copy, Debug, PartialEq, Eq, Error)]
pub enum PackError {
    /// The path does not begin with `/`.
    #[error("path is not absolute")]
    NotAbsolute,
    /// What the path leads to is no directory.
    #[error("not a directory")]
    NotDir,
    /// What the path leads to is no file.
    #[error("not a file")]
    NotFile,
    /// A `..` stands behind a link.
    #[error("link in a parent path")]
    LinkInParent,
    /// More than forty links stand on the path and on their targets.
    #[error("too many links")]
    TooManyLinks,
    /// The tree failed, and its count of faults rose.
    #[error("tree fault")]
    TreeFault,
    /// The sink failed, and its count of faults rose.
    #[error("sink fault")]
    SinkFault,
    /// A name or the target of a link is not UTF-8, and the tree's count of such names rose.
    #[error("name is not UTF-8")]
    NotUtf8,
    /// Memory ran out.
    #[error("out of memory")]
    Memory,
    /// A packed path, or the path or target of a recorded link, is longer than 65,535 bytes.
    #[error("path is too long")]
    PathTooLong,
}

impl From<AllocError> for PackError {
    ghost use Rattle.std.specs.Prelude.{◌≡◌};
    ghost use Rattle.path_pkg.specs.declared.fault.PackError.TheVariants.{Memory};

    ghost from_gives = { λ _ e. e ≡ Memory };

    fn from(_: AllocError) -> Self {
        PackError::Memory
    }
}

impl From<TreeFault> for PackError {
    ghost use Rattle.std.specs.Prelude.{◌≡◌};
    ghost use Rattle.path_pkg.specs.Fault.{pack_error};

    ghost from_gives = { λ f e. e ≡ pack_error f };

    fn from(fault: TreeFault) -> Self {
        match fault {
            TreeFault::Failed => PackError::TreeFault,
            TreeFault::NotUtf8 => PackError::NotUtf8,
            TreeFault::Memory => PackError::Memory,
        }
    }
}

/// Why a packager appended nothing more.
#[derive(Clone, Copy, Debug, PartialEq, Eq, Error)]
pub enum PackFault {
    /// The packager refused, and its count of refusals rose.
    #[error("packager refused")]
    Refused,
    /// Memory ran out.
    #[error("out of memory")]
    Memory,
}
