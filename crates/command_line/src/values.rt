//! Values that are more than a text or a number.
ghost use Rattle.std.specs.Prelude.{◌≡◌, IfOk, option_map};
ghost use Rattle.dist_token.specs.Verdict.{bytes_of};
ghost use Rattle.command_line.specs.Values.{is_secret};

use base64::DecodeAllocError;
use base64::engine::general_purpose::URL_SAFE_NO_PAD;
use dist_types::fault::Memory;
use std::alloc::Global;

/// How long a signing key is, in bytes.
const SECRET_BYTES: usize = 32;

/// The bytes that a text stands for in base64url, with zero spare bits and no padding.
#[tactic(auto, unfolding(dist_token::specs::Verdict::bytes_of, base64::specs::GeneralPurpose::decoded_of))]
pub fn bytes_of(alloc: Global, text: &str) -> Result<Option<Vec<u8>>, Memory>
    ensures { IfOk result (λ bytes. option_map (λ b. b.items) bytes ≡ bytes_of text.now) }
{
    match URL_SAFE_NO_PAD.decode(alloc, text.as_bytes()) {
        Ok(bytes) => Ok(Some(bytes)),
        Err(DecodeAllocError::DecodeError(_)) => Ok(None),
        Err(DecodeAllocError::OutOfMemory) => Err(Memory),
    }
}

/// Whether a text is base64url of 32 bytes.
pub fn is_secret(alloc: Global, text: &str) -> Result<bool, Memory>
    ensures { IfOk result (λ answer. answer ≡ is_secret text.now) }
{
    match bytes_of(alloc, text)? {
        Some(bytes) => Ok(bytes.len() == SECRET_BYTES),
        None => Ok(false),
    }
}
