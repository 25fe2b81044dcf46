//! The line that a command for an authority writes.
ghost use Rattle.std.specs.Prelude.{◌≡◌, ◌≢◌, ◌⊎◌, Some, None, IfOk, IfErr, OnOk, OnErr};
ghost use Rattle.std.specs.Prelude.{option_map, string_bytes};
ghost use Rattle.rand_core.specs.Stream.{fill_bytes};
ghost use Rattle.dist_token.specs.Verdict.{bytes_of};
ghost use Rattle.command_line.specs.Line.{random_line, token_line, auth_line, stream_left, IsLineFault};

use crate::command::AuthSubcommand;
use crate::values::bytes_of;
use base64::engine::general_purpose::URL_SAFE_NO_PAD;
use dist_token::server_token::create_jwt_server_token;
use dist_types::ids::ServerId;
use dist_types::text::Text;
use line_program::fault::{ConfigCause, FarmFault};
use rand_core::Rng;
use std::alloc::{AllocError, Global};

/// So many random bytes.
fn random_bytes<R: Rng>(
    alloc: Global,
    random: &mut R,
    num_bytes: usize,
) -> Result<Vec<u8>, AllocError>
    ensures bytes { IfOk result (λ bytes. (bytes.items, R.stream random.new) ≡ fill_bytes num_bytes
        (R.stream random.old)) }
    ensures undrawn { OnErr result (R.stream random.new ≡ R.stream random.old) }
{
    let mut bytes = Vec::new(alloc);
    bytes.resize(num_bytes, 0)?;
    random.fill_bytes(&mut bytes);
    Ok(bytes)
}

/// Random bytes in base64url, and a line end.
#[tactic(auto, unfolding(dist_token::specs::Token::encoded))]
fn random_line<R: Rng>(
    alloc: Global,
    random: &mut R,
    num_bytes: usize,
) -> Result<String, AllocError>
    ensures line { IfOk result (λ line. string_bytes line ≡ random_line num_bytes (R.stream random.old)) }
    ensures left { OnOk result (R.stream random.new ≡ (fill_bytes num_bytes (R.stream random.old)).1) }
    ensures drawn { (R.stream random.new ≡ R.stream random.old)
        ⊎ (R.stream random.new ≡ (fill_bytes num_bytes (R.stream random.old)).1) }
{
    let bytes = random_bytes(alloc, random, num_bytes)?;
    let mut line = URL_SAFE_NO_PAD.encode(alloc, &bytes)?;
    line.push('\n')?;
    Ok(line)
}

fn bad_key(alloc: Global) -> FarmFault
    ensures { IsLineFault result }
{
    match Text::of(alloc, "secret_key") {
        Ok(key) => FarmFault::BadConfig(ConfigCause::Key(key)),
        Err(_) => FarmFault::Memory,
    }
}

/// The token of a server under these bytes, and a line end.
fn token_under(alloc: Global, key: &[u8], server_id: ServerId) -> Result<String, FarmFault>
    ensures line { IfOk result (λ line. string_bytes line ≡ token_line key.now server_id) }
    ensures err { IfErr result (λ e. e ≡ FarmFault.Memory) }
{
    let Ok(mut line) = create_jwt_server_token(alloc, server_id, key) else {
        return Err(FarmFault::Memory);
    };
    match line.push('\n') {
        Ok(()) => Ok(line),
        Err(_) => Err(FarmFault::Memory),
    }
}

/// The token of a server under a key in base64url, and a line end.
fn token_line(alloc: Global, secret_key: &str, server_id: ServerId) -> Result<String, FarmFault>
    ensures ok { IfOk result
        (λ line. option_map (λ key. token_line key server_id) (bytes_of secret_key.now) ≡ Some
        (string_bytes line)) }
    ensures err { IfErr result
        (λ e. (e ≡ FarmFault.Memory) ⊎ ((bytes_of secret_key.now ≡ None) × IsLineFault e)) }
{
    match bytes_of(alloc, secret_key) {
        Ok(Some(key)) => token_under(alloc, &key, server_id),
        Ok(None) => Err(bad_key(alloc)),
        Err(_) => Err(FarmFault::Memory),
    }
}

/// The line that a command for an authority writes. Refused where its key is not base64url, and for want
/// of memory; a refusal draws nothing from the stream, and want of memory nothing or what the line takes.
pub fn auth_line<R: Rng>(
    alloc: Global,
    auth: &AuthSubcommand,
    random: &mut R,
) -> Result<String, FarmFault>
    ensures ok { IfOk result (λ line. auth_line auth.now (R.stream random.old) ≡ Some (string_bytes line)) }
    ensures left { OnOk result (R.stream random.new ≡ stream_left auth.now (R.stream random.old)) }
    ensures err { IfErr result (λ e. (e ≡ FarmFault.Memory)
        ⊎ ((auth_line auth.now (R.stream random.old) ≡ None) × IsLineFault e)) }
    ensures drawn { (R.stream random.new ≡ R.stream random.old)
        ⊎ (R.stream random.new ≡ stream_left auth.now (R.stream random.old)) }
    ensures undrawn { IfErr result (λ e. e ≢ FarmFault.Memory → R.stream random.new ≡ R.stream random.old) }
{
    match auth {
        AuthSubcommand::Base64 { num_bytes } => match random_line(alloc, random, *num_bytes) {
            Ok(line) => Ok(line),
            Err(_) => Err(FarmFault::Memory),
        },
        AuthSubcommand::JwtHS256ServerToken {
            secret_key,
            server_id,
        } => token_line(alloc, secret_key.get(), *server_id),
    }
}
