//! What is written to an executor.
ghost use Rattle.std.specs.Prelude.{◌≡◌, ◌≤◌, ◌<◌, ◌^◌, ◌⊎◌, IfOk, IfErr, OnOk, length, string_bytes};
ghost use Rattle.dist_wire.specs.Written as spelling;
ghost use Rattle.http_head.specs.WrittenRequest.{request_text};
ghost use Rattle.http_routes.specs.RunHead.{run_body};
ghost use Rattle.http_routes.specs.Requests.{post_with};
ghost use Rattle.exec_builder.specs.Questions.{host_at, run_question, archive_question};

use crate::executor::Executor;
use dist_types::fault::Memory;
use dist_types::text::Bytes;
use dist_types::toolchain::Toolchain;
use dist_wire::error::WireError;
use dist_wire::message::Message;
use dist_wire::run::RunJobHttpRequest;
use http_head::error::HttpError;
use http_routes::builder::{RequestBuilder, ReqwestRequestBuilderExt};
use std::alloc::{AllocError, AllocFailed, Global};

/// Why a question is not written.
#[derive(Clone, Copy, Debug, PartialEq, Eq)]
pub enum QuestionFault {
    /// The command and the names of the outputs have 2^32 bytes or more.
    TooLong,
    /// Memory ran out.
    Memory,
}

impl From<AllocError> for QuestionFault {
    ghost use Rattle.std.specs.Prelude.{◌≡◌};
    ghost use Rattle.exec_builder.specs.declared.questions.QuestionFault.TheVariants.{Memory as OutOfMemory};

    ghost from_gives = { λ _ e. e ≡ OutOfMemory };

    fn from(_: AllocError) -> Self {
        QuestionFault::Memory
    }
}

impl<T: Drop> From<AllocFailed<T>> for QuestionFault {
    ghost use Rattle.std.specs.Prelude.{◌≡◌};
    ghost use Rattle.exec_builder.specs.declared.questions.QuestionFault.TheVariants.{Memory as OutOfMemory};

    ghost from_gives = { λ _ e. e ≡ OutOfMemory };

    fn from(_: AllocFailed<T>) -> Self {
        QuestionFault::Memory
    }
}

impl From<Memory> for QuestionFault {
    ghost use Rattle.std.specs.Prelude.{◌≡◌};
    ghost use Rattle.exec_builder.specs.declared.questions.QuestionFault.TheVariants.{Memory as OutOfMemory};

    ghost from_gives = { λ _ e. e ≡ OutOfMemory };

    fn from(_: Memory) -> Self {
        QuestionFault::Memory
    }
}

/// The bytes of a POST under a secret.
fn built(target: String, host: String, secret: &str, body: Bytes) -> Result<Bytes, HttpError>
    ensures text { IfOk result (λ bytes. bytes
        ≡ request_text (post_with (string_bytes target) (string_bytes host) secret.now body)) }
    ensures err { IfErr result (λ e. e ≡ HttpError.Memory) }
{
    let builder = RequestBuilder::post_to(target, host);
    let builder = builder.bearer_auth(secret)?;
    let builder = builder.bytes(body.into_inner())?;
    let bytes = builder.build()?;
    Ok(Bytes::new(bytes))
}

/// The host and the port of an executor, as a head names them.
fn host_of(alloc: Global, executor: &Executor) -> Result<String, AllocError>
    ensures { IfOk result (λ host. string_bytes host ≡ host_at executor.now) }
{
    let host = executor.host.get();
    let port = executor.port;
    format!(in alloc; "{host}:{port}")
}

/// The bytes of a question to an executor. Refused for want of memory alone.
fn question(
    alloc: Global,
    executor: &Executor,
    target: String,
    body: Bytes,
) -> Result<Bytes, Memory>
    ensures { IfOk result (λ bytes. bytes
        ≡ request_text (post_with (string_bytes target) (host_at executor.now) executor.now.secret body)) }
{
    let host = host_of(alloc, executor)?;
    match built(target, host, executor.secret.get(), body) {
        Ok(bytes) => Ok(bytes),
        Err(_) => Err(Memory),
    }
}

/// The body of a run: TooLong exactly where its head has 2^32 bytes or more; else refused for want of memory
/// alone.
#[tactic(auto, unfolding(http_routes::specs::RunHead::run_body))]
fn run_body(alloc: Global, run: &RunJobHttpRequest, inputs: &[u8]) -> Result<Bytes, QuestionFault>
    ensures body { IfOk result (λ bytes. bytes ≡ run_body run.now inputs.now) }
    ensures low { OnOk result (length (spelling.run_text run.now) < 2 ^ 32) }
    ensures err { IfErr result (λ e. (e ≡ QuestionFault.Memory)
        ⊎ ((e ≡ QuestionFault.TooLong) × (2 ^ 32 ≤ length (spelling.run_text run.now)))) }
{
    let head = match run.write(alloc) {
        Ok(head) => head,
        Err(WireError::Memory) => return Err(QuestionFault::Memory),
        Err(WireError::ParseError) => unreachable!(),
    };
    let Ok(len) = u32::try_from(head.len()) else {
        return Err(QuestionFault::TooLong);
    };
    let mut bytes = Vec::from_slice(alloc, &len.to_be_bytes())?;
    bytes.extend_from_slice(&head)?;
    bytes.extend_from_slice(inputs)?;
    Ok(Bytes::new(bytes))
}

/// The question to run a command in the archive of that id, over these inputs: TooLong exactly where command and
/// names of outputs have 2^32 bytes or more; else refused for want of memory alone.
#[tactic(auto, unfolding(crate::specs::Questions::run_question))]
pub fn run_question(
    alloc: Global,
    executor: &Executor,
    toolchain: &Toolchain,
    run: &RunJobHttpRequest,
    inputs: &[u8],
) -> Result<Bytes, QuestionFault>
    ensures text { IfOk result (λ bytes. bytes
        ≡ request_text (run_question executor.now toolchain.now run.now inputs.now)) }
    ensures low { OnOk result (length (spelling.run_text run.now) < 2 ^ 32) }
    ensures err { IfErr result (λ e. (e ≡ QuestionFault.Memory)
        ⊎ ((e ≡ QuestionFault.TooLong) × (2 ^ 32 ≤ length (spelling.run_text run.now)))) }
{
    let body = run_body(alloc, run, inputs)?;
    let id = toolchain.archive_id();
    let target = format!(in alloc; "/api/v1/executor/run/{id}")?;
    let bytes = question(alloc, executor, target, body)?;
    Ok(bytes)
}

/// The question that brings the archive of that id. Refused for want of memory alone.
#[tactic(auto, unfolding(crate::specs::Questions::archive_question))]
pub fn archive_question(
    alloc: Global,
    executor: &Executor,
    toolchain: &Toolchain,
    archive: &[u8],
) -> Result<Bytes, Memory>
    ensures text { IfOk result (λ bytes. bytes
        ≡ request_text (archive_question executor.now toolchain.now archive.now)) }
{
    let body = Bytes::from_slice(alloc, archive)?;
    let id = toolchain.archive_id();
    let target = format!(in alloc; "/api/v1/executor/archive/{id}")?;
    let bytes = question(alloc, executor, target, body)?;
    Ok(bytes)
}
