//! The keyed hash of RFC 2104 over SHA-256 (FIPS 180-4), and its comparison.
ghost use Rattle.std.specs.Prelude.{◌≡◌, ◌↔◌, ℕ, List, length};
ghost use Rattle.std.specs.Str.{bytes_eq};
ghost use Rattle.dist_token.specs.Mac.{key_block, with_pad, hmac_of};

use sha2::{Digest, Sha256};

/// The block of SHA-256, in bytes (RFC 2104, section 2, `B`).
pub(crate) const BLOCK: usize = 64;

/// The MAC, in bytes (RFC 2104, section 2, `L`).
pub const MAC_LEN: usize = 32;

/// The pads of RFC 2104, section 2: `ipad` and `opad`.
pub(crate) const INNER_PAD: u8 = 0x36;

pub(crate) const OUTER_PAD: u8 = 0x5c;

// The key as one block.
pub(crate) fn block_of(key: &[u8]) -> [u8; BLOCK]
    ensures { result ≡ key_block key.now }
{
    let mut block = [0; BLOCK];
    if key.len() > BLOCK {
        let digest = Sha256::digest(key);
        block[..32].copy_from_slice(&digest);
    } else {
        block[..key.len()].copy_from_slice(key);
    }
    block
}

pub(crate) fn padded(block: &[u8; BLOCK], pad: u8) -> [u8; BLOCK]
    ensures { result ≡ with_pad pad block.now }
{
    let mut out = *block;
    for byte in out.iter_mut() {
        *byte ^= pad;
    }
    out
}

/// The MAC of a text under a key of any length, by RFC 2104 over SHA-256. It takes no memory, and is
/// never refused.
#[tactic(auto, unfolding(crate::specs::Mac::hmac_of))]
pub fn hmac_sha256(key: &[u8], text: &[u8]) -> [u8; MAC_LEN]
    ensures mac { result ≡ hmac_of key.now text.now }
{
    let block = block_of(key);
    let mut inner = Sha256::new();
    inner.update(padded(&block, INNER_PAD));
    inner.update(text);
    let mut outer = Sha256::new();
    outer.update(padded(&block, OUTER_PAD));
    outer.update(inner.finalize());
    outer.finalize()
}

/// A key under which MACs are made.
pub trait MacKey {
    /// Its bytes.
    ghost bytes_of: { Self → List ℕ };

    /// The MAC of a text, by RFC 2104 over SHA-256. It takes no memory, and is never refused.
    fn mac(&self, text: &[u8]) -> [u8; MAC_LEN]
        ensures { result ≡ hmac_of (bytes_of self.now) text.now };
}

/// A key that is known by its bytes alone.
#[derive(Clone, Copy)]
pub struct BareKey<'a> {
    pub bytes: &'a [u8],
}

impl MacKey for BareKey<'_> {
    ghost bytes_of = { λ key. key.bytes.now };

    fn mac(&self, text: &[u8]) -> [u8; MAC_LEN] {
        hmac_sha256(self.bytes, text)
    }
}

/// Whether the bytes are this MAC. The length of what was given is no secret, and is compared first. Then
/// each of the 32 bytes is looked at, whatever those before it were, and nothing in the loop depends on
/// them: no branch, no index, no early end. No clause speaks of time, so none can say this.
pub fn is_mac(given: &[u8], mac: &[u8; MAC_LEN]) -> bool
    ensures same { result ≡ bytes_eq given.now mac.now }
{
    if given.len() != MAC_LEN {
        return false;
    }
    difference(given, mac) == 0
}

// The bits in which two texts of one length differ, of all bytes together.
fn difference(given: &[u8], mac: &[u8; MAC_LEN]) -> u8
    requires { length given.now ≡ 32 }
    ensures { (result ≡ 0) ↔ (given.now ≡ mac.now) }
{
    let mut bits = 0;
    for index in 0..MAC_LEN {
        bits |= given[index] ^ mac[index];
    }
    bits
}
