//! The tokens that a peer accepted, each with the moment, in milliseconds, at which it did.
ghost use Rattle.std.specs.Prelude.{◌≡◌, ℕ, List, OnOk, OnErr, Some, None};
ghost use Rattle.dist_token.specs.Forwarded.{Moves};
ghost use Rattle.dist_token.specs.ProxyViews.{moment_in};

use dist_types::fault::Memory;
use std::alloc::Global;
use std::collections::BTreeMap;

/// The tokens that a peer accepted, each with the moment at which it did.
#[derive(Drop)]
pub struct Kept {
    pub moments: BTreeMap<String, u64>,
}

/// No token. It takes no memory.
pub fn none_kept(alloc: Global) -> Kept
    ensures { (token : List ℕ) → moment_in result token ≡ None }
{
    Kept {
        moments: BTreeMap::new(alloc),
    }
}

/// The moment at which a token was accepted, where it is kept.
pub fn moment_of(kept: &Kept, token: &str) -> Option<u64>
    ensures { result ≡ moment_in kept.now token.now }
{
    kept.moments.get(token).copied()
}

/// Keeps a token no longer. It takes no memory.
pub fn forget(kept: &mut Kept, token: &str)
    ensures { Moves (moment_in kept.old) (moment_in kept.new) token.now None }
{
    let _moment = kept.moments.remove(token);
}

/// Keeps a token with its moment. Refused for want of memory alone, and then nothing changes.
pub fn keep(alloc: Global, kept: &mut Kept, token: &str, now: u64) -> Result<(), Memory>
    ensures ok { OnOk result (Moves (moment_in kept.old) (moment_in kept.new) token.now (Some now)) }
    ensures err { OnErr result ((other : List ℕ) → moment_in kept.new other ≡ moment_in kept.old other) }
{
    let token = String::from_str(alloc, token)?;
    let Ok(_) = kept.moments.insert(token, now) else {
        return Err(Memory);
    };
    Ok(())
}
