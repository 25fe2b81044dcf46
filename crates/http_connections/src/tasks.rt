//! Where a worker's connections come from, and where they go.
ghost use Rattle.std.specs.Prelude.{◌≡◌, [], Option, IfSome, IfNone};
ghost use Rattle.http_connections.specs.Tally.{Tally, Gave, GotBack};

use crate::served::Served;
use dist_types::addr::Addr;
use dist_types::link::Link;

/// Gives connections, and takes them back.
pub trait Tasks: Send + Drop {
    /// What it gives. It never leaves its thread, and yet is one that may.
    type L: Link + Drop + Send;

    /// The links that it will give and those that came back, where that is told.
    ghost told: { Self → Option (Tally Self.L) };

    /// The next link and its peer; None exactly where none is left.
    fn take(&mut self) -> Option<(Self::L, Addr)>
        ensures some { IfSome result (λ given. Gave given (told self.old) (told self.new)) }
        ensures none { IfNone result (told self.new ≡ told self.old) }
        ensures end { IfNone result (IfSome (told self.new) (λ t. t.coming ≡ [])) };

    /// Takes a link back, with what serving it answered.
    fn done(&mut self, link: Self::L, served: Served)
        ensures { GotBack link served (told self.old) (told self.new) };
}
