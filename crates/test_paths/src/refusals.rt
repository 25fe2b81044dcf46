//! The tree of a system whose every call is refused: want of memory is Memory, a name that is not UTF-8 is
//! NotUtf8, and all else is Failed, where it does not say that nothing is there.
use path_pkg::fault::TreeFault;
use path_pkg::node::Kind;
use path_pkg::real_tree::RealTree;
use path_pkg::tree::Tree;
use std::alloc::{Allocator, Global};
use std::fs::{File, Metadata, OpenOptions};
use std::io::{self, ErrorKind};
use std::path::PathBuf;
use std::process::Abort;
use std::rt::Files;
use std::test::Fail;

/// Refuses each call, by a number of the system or without one.
#[derive(Clone, Copy)]
struct Refusing {
    number: Option<i32>,
    kind: ErrorKind,
}

impl Refusing {
    fn error(&self) -> io::Error {
        match self.number {
            Some(number) => io::Error::from_raw_os_error(number),
            None => io::Error::from(self.kind),
        }
    }
}

impl Files for Refusing {
    type File = File;

    type Dir = File;

    fn open_file(&self, _how: &OpenOptions, _path: &str) -> io::Result<File> {
        Err(self.error())
    }

    fn open_dir(&self, _path: &str) -> io::Result<File> {
        Err(self.error())
    }

    fn metadata(&self, _path: &str) -> io::Result<Metadata> {
        Err(self.error())
    }

    fn symlink_metadata(&self, _path: &str) -> io::Result<Metadata> {
        Err(self.error())
    }

    fn copy(&self, _from: &str, _to: &str) -> io::Result<u64> {
        Err(self.error())
    }

    fn rename(&self, _from: &str, _to: &str) -> io::Result<()> {
        Err(self.error())
    }

    fn remove_file(&self, _path: &str) -> io::Result<()> {
        Err(self.error())
    }

    fn create_dir(&self, _path: &str) -> io::Result<()> {
        Err(self.error())
    }

    fn remove_dir(&self, _path: &str) -> io::Result<()> {
        Err(self.error())
    }

    fn remove_dir_all<B: Allocator>(&self, _alloc: B, _path: &str) -> io::Result<()> {
        Err(self.error())
    }

    fn read_link<B: Allocator>(&self, _alloc: B, _path: &str) -> io::Result<PathBuf<B>> {
        Err(self.error())
    }
}

/// What each call of the tree answers: the two that ask for a kind, and the other three.
fn answers(
    rt: &impl Abort,
    alloc: Global,
    files: Refusing,
    kind: Result<Kind, TreeFault>,
    wanted: TreeFault,
) {
    let mut tree = RealTree::new((files, alloc));
    assert_eq!(rt; tree.kind("/a"), kind);
    assert_eq!(rt; tree.target_kind("/a"), kind);
    assert_eq!(rt; tree.read_link("/a").err(), Some(wanted));
    assert_eq!(rt; tree.read("/a").err(), Some(wanted));
    assert_eq!(rt; tree.walk("/a").err(), Some(wanted));
}

fn refused(rt: &impl Abort, alloc: Global, kind: ErrorKind, wanted: TreeFault) {
    let files = Refusing { number: None, kind };
    answers(rt, alloc, files, Err(wanted), wanted);
}

fn refused_by(rt: &impl Abort, alloc: Global, number: i32, wanted: TreeFault) {
    let files = Refusing {
        number: Some(number),
        kind: ErrorKind::Other,
    };
    answers(rt, alloc, files, Err(wanted), wanted);
}

/// The numbers are those of Linux: ENOMEM is 12, EACCES 13, EIO 5 and ENAMETOOLONG 36.
#[test]
fn what_the_errors_of_the_system_are_told_as(rt: HostRuntime) -> Result<(), Fail> {
    let alloc = rt.alloc();
    refused(&rt, alloc, ErrorKind::OutOfMemory, TreeFault::Memory);
    refused_by(&rt, alloc, 12, TreeFault::Memory);
    refused(&rt, alloc, ErrorKind::InvalidFilename, TreeFault::NotUtf8);
    refused_by(&rt, alloc, 36, TreeFault::Failed);
    refused(&rt, alloc, ErrorKind::PermissionDenied, TreeFault::Failed);
    refused_by(&rt, alloc, 13, TreeFault::Failed);
    refused_by(&rt, alloc, 5, TreeFault::Failed);
    Ok(())
}

/// ENOENT is 2, ENOTDIR 20 and ELOOP 40.
#[test]
fn what_is_not_there(rt: HostRuntime) -> Result<(), Fail> {
    let alloc = rt.alloc();
    for number in [2i32, 20, 40] {
        let files = Refusing {
            number: Some(number),
            kind: ErrorKind::Other,
        };
        answers(&rt, alloc, files, Ok(Kind::None), TreeFault::Failed);
    }
    Ok(())
}
