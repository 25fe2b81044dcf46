//! Packages of directories, files and links.
ghost use Rattle.std.specs.Prelude.{◌≡◌, ◌↔◌, ◌++◌, [], true, false, codes, Err, OnErr, IfErr, OnOk};
ghost use Rattle.std.specs.List.{list_all};
ghost use Rattle.path_pkg.specs.Fault.{IsPackAnswer, PackLeavesTree};
ghost use Rattle.path_pkg.specs.Outline.{written_order, PutsPackage};
ghost use Rattle.path_pkg.specs.Path.{is_absolute};
ghost use Rattle.path_pkg.specs.Records.{record_fits, onto, added, contents_records};
ghost use Rattle.path_pkg.specs.Told.{WhereTold};
ghost use Rattle.path_pkg.specs.Written.{pieces, PutsPieces, Writes};
ghost use Rattle.path_pkg.specs.declared.record.Packed.TheVariants.{Dir, File};

use crate::collect::{added, contents};
use crate::fault::PackError;
use crate::record::{Packed, Record};
use crate::tree::Tree;
use crate::write::write_package;
use dist_types::sink::Sink;
use std::alloc::{AllocError, Global};
use std::marker::Model;

/// A package in the making, which contracts see as its records in the order in which they were added.
#[derive(Debug, Drop)]
pub struct ToolchainPackageBuilder {
    alloc: Global,
    records: Vec<Record>,
}

impl Model for ToolchainPackageBuilder {
    ghost use Rattle.std.specs.Prelude.{List};
    ghost use Rattle.path_pkg.specs.declared.record.Record.{Record};
    ghost use Rattle.path_pkg.specs.Records.{RecordsFit};

    ghost Value = { List Record };

    ghost view = { λ b. b.records.items };

    ghost invariant = { λ b. RecordsFit b.records.items };
}

impl ToolchainPackageBuilder {
    /// An empty package. It takes no memory.
    pub fn new(alloc: Global) -> Self
        ensures { result ≡ [] }
    {
        ToolchainPackageBuilder {
            alloc,
            records: Vec::new(alloc),
        }
    }

    /// Adds the directory `/tmp`.
    pub fn add_common<T: Tree>(&mut self, tree: &mut T) -> Result<(), PackError>
        ensures records { WhereTold (T.told tree.old)
            (λ t. IsPackAnswer (λ _. self.new) (onto self.old (added Dir t (codes "/tmp"))) result) }
        ensures absolute { IfErr result (λ e. ¬ (e ≡ PackError.NotAbsolute)) }
        ensures err { OnErr result (self.new ≡ self.old) }
        ensures leaves { PackLeavesTree result (T.told tree.old) (T.told tree.new) }
    {
        self.add_dir(tree, "/tmp")
    }

    /// Adds a directory and the links on its way. The root adds only the links. In this order: NotAbsolute
    /// exactly where the path does not begin with `/`; NotDir where it leads to no directory; TooManyLinks
    /// past forty links; PathTooLong where a packed path, or the path or target of a link, is longer than
    /// 65,535 bytes.
    pub fn add_dir<T: Tree>(&mut self, tree: &mut T, path: &str) -> Result<(), PackError>
        ensures records { WhereTold (T.told tree.old)
            (λ t. IsPackAnswer (λ _. self.new) (onto self.old (added Dir t path.now)) result) }
        ensures not_absolute { (result ≡ Err PackError.NotAbsolute) ↔ (is_absolute path.now ≡ false) }
        ensures err { OnErr result (self.new ≡ self.old) }
        ensures leaves { PackLeavesTree result (T.told tree.old) (T.told tree.new) }
    {
        match added(self.alloc, tree, path, Packed::Dir) {
            Ok(mut more) => {
                append(&mut self.records, &mut more)?;
                Ok(())
            }
            Err(fault) => Err(fault),
        }
    }

    /// Adds a file and the links on its way, and is refused as `add_dir`, with NotFile in place of NotDir.
    pub fn add_file<T: Tree>(&mut self, tree: &mut T, path: &str) -> Result<(), PackError>
        ensures records { WhereTold (T.told tree.old)
            (λ t. IsPackAnswer (λ _. self.new) (onto self.old (added File t path.now)) result) }
        ensures not_absolute { (result ≡ Err PackError.NotAbsolute) ↔ (is_absolute path.now ≡ false) }
        ensures err { OnErr result (self.new ≡ self.old) }
        ensures leaves { PackLeavesTree result (T.told tree.old) (T.told tree.new) }
    {
        match added(self.alloc, tree, path, Packed::File) {
            Ok(mut more) => {
                append(&mut self.records, &mut more)?;
                Ok(())
            }
            Err(fault) => Err(fault),
        }
    }

    /// Adds each file below a directory and each link there that leads to a file, with the links on their
    /// way, those to the directory too, and skips all else: where there is no such file it adds nothing. It is
    /// refused as `add_dir`, and then adds nothing.
    pub fn add_dir_contents<T: Tree>(&mut self, tree: &mut T, path: &str) -> Result<(), PackError>
        ensures records { WhereTold (T.told tree.old)
            (λ t. IsPackAnswer (λ _. self.new) (onto self.old (contents_records t path.now)) result) }
        ensures not_absolute { (result ≡ Err PackError.NotAbsolute) ↔ (is_absolute path.now ≡ false) }
        ensures err { OnErr result (self.new ≡ self.old) }
        ensures leaves { PackLeavesTree result (T.told tree.old) (T.told tree.new) }
    {
        match contents(self.alloc, tree, path) {
            Ok(mut more) => {
                append(&mut self.records, &mut more)?;
                Ok(())
            }
            Err(fault) => Err(fault),
        }
    }

    /// Writes the package as a framed list: its directories, then its files, then its links, each by path in
    /// byte order, of each path the last, each file with its content. Over a tree that does not tell what
    /// stands where, its paths and links are these, with some content for each file. TreeFault, NotUtf8 and
    /// SinkFault come only where a count rose. After a refusal a front of the list was written, which ends
    /// before a file that is gone.
    pub fn into_framed_list<T: Tree, W: Sink>(
        self,
        tree: &mut T,
        out: &mut W,
    ) -> Result<(), PackError>
        ensures puts { WhereTold (T.told tree.old)
            (λ t. PutsPieces result (pieces t self) (W.held out.old) (W.held out.new)) }
        ensures outline { PutsPackage result (written_order self) (W.held out.old) (W.held out.new) }
        ensures writes { Writes result (T.told tree.old) (T.told tree.new) (W.faults out.old)
            (W.faults out.new) }
    {
        let alloc = self.alloc;
        write_package(alloc, tree, out, &self.records)
    }
}

fn append(records: &mut Vec<Record>, more: &mut Vec<Record>) -> Result<(), AllocError>
    requires fit { list_all record_fits records.old.items ≡ true }
    requires more_fit { list_all record_fits more.old.items ≡ true }
    ensures ok { OnOk result (records.new.items ≡ records.old.items ++ more.old.items) }
    ensures err { OnErr result (records.new.items ≡ records.old.items) }
    ensures still_fit { list_all record_fits records.new.items ≡ true }
{
    records.append(more)?;
    Ok(())
}
