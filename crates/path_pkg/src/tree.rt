//! Trees of directories, files and links: what is asked of one.
ghost use Rattle.std.specs.Prelude.{◌≡◌, ◌⊎◌, IfOk, Some, None, Err, map, string_bytes};
ghost use Rattle.path_pkg.specs.Told.{Told, WhereTold, LeavesTree, IsInByteOrder};
ghost use Rattle.path_pkg.specs.Resolved.{target_kind_at, content_at, paths_below};
ghost use Rattle.path_pkg.specs.Tree.{kind_at, link_at};

use crate::fault::TreeFault;
use crate::node::Kind;

/// A tree of directories, files and links.
pub trait Tree {
    /// What stands where, as far as it is told, and the counts of faults and of names that are not UTF-8. A
    /// call that is refused leaves what stands where; Failed and NotUtf8 raise their own count alone, and
    /// Memory raises none.
    ghost told: { Self → Told };

    /// The kind of what stands at a path. A link at its end is not followed.
    fn kind(&mut self, path: &str) -> Result<Kind, TreeFault>
        ensures kind { IfOk result (λ k. WhereTold (told self.old) (λ t. k ≡ kind_at t path.now)) }
        ensures leaves { LeavesTree result (told self.old) (told self.new) };

    /// The target of the link at a path. Failed where there is no link.
    fn read_link(&mut self, path: &str) -> Result<String, TreeFault>
        ensures target { IfOk result
            (λ s. WhereTold (told self.old) (λ t. link_at t path.now ≡ Some (string_bytes s))) }
        ensures no_link { WhereTold (told self.old) (λ t. link_at t path.now ≡ None
            → result ≡ Err TreeFault.Failed) }
        ensures leaves { LeavesTree result (told self.old) (told self.new) };

    /// The kind of what a path leads to, with each link followed, and None past forty links.
    fn target_kind(&mut self, path: &str) -> Result<Kind, TreeFault>
        ensures kind { IfOk result
            (λ k. WhereTold (told self.old) (λ t. k ≡ target_kind_at t path.now)) }
        ensures leaves { LeavesTree result (told self.old) (told self.new) };

    /// The content of the file that a path leads to, with each link followed. Failed where there is no file.
    fn read(&mut self, path: &str) -> Result<Vec<u8>, TreeFault>
        ensures content { IfOk result
            (λ v. WhereTold (told self.old) (λ t. content_at t path.now ≡ Some v.items)) }
        ensures no_file { WhereTold (told self.old) (λ t. content_at t path.now ≡ None
            → (result ≡ Err TreeFault.Failed) ⊎ (result ≡ Err TreeFault.Memory)) }
        ensures leaves { LeavesTree result (told self.old) (told self.new) };

    /// All paths below a directory, in byte order. No link is followed.
    fn walk(&mut self, path: &str) -> Result<Vec<String>, TreeFault>
        ensures paths { IfOk result
            (λ v. WhereTold (told self.old) (λ t. map string_bytes v.items ≡ paths_below t path.now)) }
        ensures leaves { LeavesTree result (told self.old) (told self.new) };

    /// The paths of what stands where strictly rise in byte order.
    ghost in_byte_order: { (tree : Self) → WhereTold (told tree) IsInByteOrder };
}
