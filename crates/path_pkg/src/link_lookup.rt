//! What the walk along a path asks: where links stand, and where they lead.
ghost use Rattle.std.specs.Prelude.{◌≡◌, true, IfOk, Some, string_bytes};
ghost use Rattle.path_pkg.specs.Told.{Told, WhereTold, LeavesTree};
ghost use Rattle.path_pkg.specs.Tree.{is_link, link_at};

use crate::fault::TreeFault;
use crate::node::Kind;
use crate::tree::Tree;

/// Where links stand and lead. Only a link is asked for its target.
pub(crate) trait LinkLookup {
    /// What stands where, as far as it is told, and the counts of faults and of names that are not UTF-8.
    ghost told: { Self → Told };

    /// Whether a link stands at a path.
    fn is_link(&mut self, path: &str) -> Result<bool, TreeFault>
        ensures link { IfOk result (λ b. WhereTold (told self.old) (λ t. b ≡ is_link t path.now)) }
        ensures leaves { LeavesTree result (told self.old) (told self.new) };

    /// The target of the link at a path.
    fn link_target(&mut self, path: &str) -> Result<String, TreeFault>
        requires { WhereTold (told self.old) (λ t. is_link t path.now ≡ true) }
        ensures target { IfOk result
            (λ s. WhereTold (told self.old) (λ t. link_at t path.now ≡ Some (string_bytes s))) }
        ensures leaves { LeavesTree result (told self.old) (told self.new) };
}

impl<T: Tree> LinkLookup for T {
    ghost told = { T.told };

    fn is_link(&mut self, path: &str) -> Result<bool, TreeFault> {
        let kind = self.kind(path)?;
        Ok(kind == Kind::Link)
    }

    fn link_target(&mut self, path: &str) -> Result<String, TreeFault> {
        self.read_link(path)
    }
}
