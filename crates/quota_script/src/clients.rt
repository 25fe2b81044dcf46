//! The clients that a script lists, found by their names.
ghost use Rattle.std.specs.Prelude.{◌≡◌, ◌++◌, ◌∷◌, [], OnOk, IfOk, false, map, string_bytes};
ghost use Rattle.quota_script.specs.Place.{is_listed, names_of};

use dist_types::text::Text;
use indexmap::IndexMap;
use std::alloc::{AllocError, Global};
use std::marker::Model;

/// The clients, found by their names, which differ. Contracts see, in the order of their listing, the name of each
/// and how many reservations it may hold.
#[derive(Debug, Drop)]
pub struct Clients {
    limits: IndexMap<String, u64>,
}

impl Model for Clients {
    ghost use Rattle.std.specs.Prelude.{List, ℕ, map, string_bytes};

    ghost Value = { List (List ℕ × ℕ) };

    ghost view = { λ c. map (λ e. (string_bytes e.0, e.1)) c.limits.entries };
}

impl Clients {
    /// No client. It takes no memory.
    pub fn new(alloc: Global) -> Self
        ensures none { result ≡ [] }
    {
        Clients {
            limits: IndexMap::new(alloc),
        }
    }

    /// Whether a client of that name is listed.
    pub fn has(&self, name: &str) -> bool
        ensures listed { result ≡ is_listed name.now (names_of self.now) }
    {
        self.limits.contains_key(name)
    }

    /// Lists one more.
    pub fn push(&mut self, name: Text, limit: u64) -> Result<(), AllocError>
        requires new { is_listed name (names_of self.old) ≡ false }
        ensures pushed { OnOk result (self.new ≡ self.old ++ (name, limit) ∷ []) }
    {
        let name = name.into_inner();
        self.limits.insert(name, limit)?;
        Ok(())
    }

    /// The names and limits, in the order of their listing.
    pub fn into_list(self, alloc: Global) -> Result<Vec<(String, u64)>, AllocError>
        ensures list { IfOk result (λ list. map (λ e. (string_bytes e.0, e.1)) list.items ≡ self) }
    {
        let Clients { limits } = self;
        limits.into_iter().collect(alloc)
    }
}
