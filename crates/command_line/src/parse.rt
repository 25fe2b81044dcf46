//! From words to a command.
ghost use Rattle.std.specs.Prelude.{◌≡◌, ◌⊎◌, IfOk, IfErr, IfSome, None, Err, map, string_bytes, codes};
ghost use Rattle.line_program.specs.declared.fault.ConfigCause.TheVariants.{Key};
ghost use Rattle.command_line.specs.Asked.{asked_by, token_of as asks_token_of, scheduler as asks_scheduler};
ghost use Rattle.command_line.specs.Asked.{server as asks_server};
ghost use Rattle.command_line.specs.Views.{asked_of};
ghost use Rattle.command_line.specs.Parsed.{signed, IsParsed};
ghost use Rattle.command_line.specs.Signed.{fault_of, IsSigned};

use crate::asked::{Asked, asked_by};
use crate::cause::ConfigFault;
pub use crate::command::{AuthSubcommand, Command};
use crate::files::Files;
use crate::read::{scheduler_config, server_config};
use dist_config::config::{SchedulerConfig, ServerAuth};
use dist_types::addr::Addr;
use dist_types::ids::ServerId;
use dist_types::text::Text;
use line_program::fault::{ConfigCause, FarmFault};
use std::alloc::Global;

fn fault_of(fault: ConfigFault) -> FarmFault
    ensures { result ≡ fault_of fault }
{
    match fault {
        ConfigFault::Cause(cause) => FarmFault::BadConfig(cause),
        ConfigFault::Memory => FarmFault::Memory,
    }
}

// That a scheduler's file has no signing key.
fn unsigned(alloc: Global) -> FarmFault
    ensures { IsSigned (Err (Key (codes "server_auth"))) (Err result) }
{
    match Text::of(alloc, "server_auth") {
        Ok(key) => FarmFault::BadConfig(ConfigCause::Key(key)),
        Err(_) => FarmFault::Memory,
    }
}

// The token of a server under the signing key of a scheduler.
fn signed(alloc: Global, address: Addr, config: SchedulerConfig) -> Result<Command, FarmFault>
    ensures { IsSigned (signed address config.server_auth) result }
{
    let SchedulerConfig {
        public_addr: _,
        client_auth: _,
        server_auth,
        rules: _,
    } = config;
    match server_auth {
        ServerAuth::JwtHS256 { secret_key } => Ok(Command::Auth(
            AuthSubcommand::JwtHS256ServerToken {
                secret_key,
                server_id: ServerId::new(address),
            },
        )),
        ServerAuth::Insecure => Err(unsigned(alloc)),
        ServerAuth::Token { token: _ } => Err(unsigned(alloc)),
    }
}

#[tactic(auto, using(crate::proofs::ParsedLemmas::token_kind))]
fn token_of<D: Files>(
    alloc: Global,
    files: &mut D,
    address: Addr,
    path: &str,
) -> Result<Command, FarmFault>
    ensures parsed { IsParsed (asks_token_of address path.now) result (D.files files.old) (D.faults files.old)
        (D.faults files.new) }
    ensures kept { D.files files.new ≡ D.files files.old }
{
    match scheduler_config(alloc, files, path) {
        Ok(config) => signed(alloc, address, config),
        Err(fault) => Err(fault_of(fault)),
    }
}

#[tactic(auto, using(crate::proofs::ParsedLemmas::scheduler_kind))]
fn scheduler_of<D: Files>(alloc: Global, files: &mut D, path: &str) -> Result<Command, FarmFault>
    ensures parsed { IsParsed (asks_scheduler path.now) result (D.files files.old) (D.faults files.old)
        (D.faults files.new) }
    ensures kept { D.files files.new ≡ D.files files.old }
{
    match scheduler_config(alloc, files, path) {
        Ok(config) => Ok(Command::Scheduler(config)),
        Err(fault) => Err(fault_of(fault)),
    }
}

#[tactic(auto, using(crate::proofs::ParsedLemmas::server_kind))]
fn server_of<D: Files>(alloc: Global, files: &mut D, path: &str) -> Result<Command, FarmFault>
    ensures parsed { IsParsed (asks_server path.now) result (D.files files.old) (D.faults files.old)
        (D.faults files.new) }
    ensures kept { D.files files.new ≡ D.files files.old }
{
    match server_config(alloc, files, path) {
        Ok(config) => Ok(Command::Server(config)),
        Err(fault) => Err(fault_of(fault)),
    }
}

// The token of a server under a key in base64url, which is not looked at.
fn token_under(alloc: Global, address: Addr, key: &str) -> Result<Command, FarmFault>
    ensures ok { IfOk result
        (λ command. command ≡ Command.Auth (AuthSubcommand.JwtHS256ServerToken key.now address)) }
    ensures err { IfErr result (λ e. e ≡ FarmFault.Memory) }
{
    match Text::of(alloc, key) {
        Ok(secret_key) => Ok(Command::Auth(AuthSubcommand::JwtHS256ServerToken {
            secret_key,
            server_id: ServerId::new(address),
        })),
        Err(_) => Err(FarmFault::Memory),
    }
}

fn command_of<D: Files>(
    alloc: Global,
    files: &mut D,
    asked: Asked<'_>,
) -> Result<Command, FarmFault>
    ensures parsed { IsParsed (asked_of asked.entry) result (D.files files.old) (D.faults files.old)
        (D.faults files.new) }
    ensures kept { D.files files.new ≡ D.files files.old }
{
    match asked {
        Asked::Farm => Ok(Command::Farm),
        Asked::Random(num_bytes) => Ok(Command::Auth(AuthSubcommand::Base64 { num_bytes })),
        Asked::TokenUnder(address, key) => token_under(alloc, address, key),
        Asked::TokenOf(address, path) => token_of(alloc, files, address, path),
        Asked::Scheduler(path) => scheduler_of(alloc, files, path),
        Asked::Server(path) => server_of(alloc, files, path),
        Asked::Storm(count) => Ok(Command::Storm(count)),
        Asked::Audit => Ok(Command::Audit),
    }
}

/// The command that words ask for; the first is the program's name. Usage exactly where they stand in no
/// row, unless memory ran out, and then the count of faults is as it was. Where a command has a
/// configuration, the first fault of its file is told.
pub fn try_parse_from<D: Files>(
    alloc: Global,
    words: &[String],
    files: &mut D,
) -> Result<Command, FarmFault>
    ensures usage { asked_by (map string_bytes words.now) ≡ None
        → (result ≡ Err FarmFault.Usage) ⊎ (result ≡ Err FarmFault.Memory) }
    ensures parsed { IfSome (asked_by (map string_bytes words.now)) (λ what.
        IsParsed what result (D.files files.old) (D.faults files.old) (D.faults files.new)) }
    ensures unread { asked_by (map string_bytes words.now) ≡ None → D.faults files.new ≡ D.faults files.old }
    ensures kept { D.files files.new ≡ D.files files.old }
{
    match asked_by(alloc, words) {
        Ok(Some(what)) => command_of(alloc, files, what),
        Ok(None) => Err(FarmFault::Usage),
        Err(_) => Err(FarmFault::Memory),
    }
}
