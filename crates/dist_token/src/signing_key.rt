//! A key whose padded blocks are hashed once, for any number of texts (RFC 2104, section 4).
ghost use Rattle.std.specs.Prelude.{◌≡◌};
ghost use Rattle.sha2.specs.Hashers.{Holds256};
ghost use Rattle.dist_token.specs.Mac.{with_pad};
ghost use Rattle.dist_token.specs.KeyStates.{AreStatesOf};

use crate::mac::{BLOCK, INNER_PAD, MAC_LEN, MacKey, OUTER_PAD, block_of, padded};
use sha2::{Digest, Sha256};
use std::alloc::Global;
use std::marker::Model;

/// A key, with the hash states of its block under the inner and the outer pad.
#[derive(Drop)]
pub struct SigningKey {
    key: Vec<u8>,
    inner: Sha256,
    outer: Sha256,
}

impl Model for SigningKey {
    ghost use Rattle.std.specs.Prelude.{ℕ, List};
    ghost use Rattle.dist_token.specs.KeyStates.{AreStatesOf};

    ghost Value = { List ℕ };

    ghost view = { λ k. k.key.items };

    // The states have taken in the two padded blocks, and nothing else.
    ghost invariant = { λ k. AreStatesOf k.key.items k.inner k.outer };
}

// The hasher that has taken in a block under a pad.
fn after_pad(block: &[u8; BLOCK], pad: u8) -> Sha256
    ensures { Holds256 result (with_pad pad block.now) }
{
    let mut hasher = Sha256::new();
    hasher.update(padded(block, pad));
    hasher
}

// A hasher that has taken in the same.
fn copy_of(hasher: &Sha256) -> Sha256
    ensures { result ≡ hasher.now }
{
    match hasher.clone() {
        Ok(copy) => copy,
        Err(_) => unreachable!(),
    }
}

impl SigningKey {
    /// The key of these bytes, of any length. It takes no memory.
    pub fn new(key: Vec<u8>) -> Self
        ensures { result ≡ key.items }
    {
        let block = block_of(&key);
        let inner = after_pad(&block, INNER_PAD);
        let outer = after_pad(&block, OUTER_PAD);
        SigningKey { key, inner, outer }
    }

    /// Its bytes.
    pub fn bytes(&self) -> &[u8]
        ensures { result.now ≡ self.now }
    {
        &self.key
    }

    /// Where its bytes were allocated.
    pub fn allocator(&self) -> Global {
        *self.key.allocator()
    }
}

impl MacKey for SigningKey {
    ghost bytes_of = { λ key. key };

    #[tactic(auto, unfolding(crate::specs::Mac::hmac_of))]
    fn mac(&self, text: &[u8]) -> [u8; MAC_LEN] {
        let mut inner = copy_of(&self.inner);
        inner.update(text);
        let mut outer = copy_of(&self.outer);
        outer.update(inner.finalize());
        outer.finalize()
    }
}
