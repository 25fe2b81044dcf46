//! Ids, commands, outputs and results, each call once with ample memory.
use dist_types::addr::Addr;
use dist_types::command::{
    SingleCompileCommand, osstring_tuples_to_strings, osstrings_to_strings, strings_to_osstrings,
    try_compile_command_to_dist,
};
use dist_types::ids::{JobId, ServerId};
use dist_types::output::{OutputData, ProcessOutput};
use dist_types::results::{
    AllocJobResult, JobAlloc, JobComplete, RunJobResult, UpdateJobStateResult,
};
use dist_types::source::MemSource;
use dist_types::text::{Bytes, Items, Text};
use dist_types::toolchain::Toolchain;
use dist_types::try_clone::TryClone;
use dist_types::type_error::TypeError;
use std::test::Fail;

const ABC: &str = "ba7816bf8f01cfea414140de5dae2223b00361a396177a9cb410ff61f20015ad";

#[test]
fn toolchain_ids(rt: HostRuntime) -> Result<(), Fail> {
    for text in [
        "",
        "a",
        "/tmp/toolchain",
        "../toolchain",
        "ba7816bf8f01cfea414140de5dae2223b00361a396177a9cb410ff61f20015a",
        "ba7816bf8f01cfea414140de5dae2223b00361a396177a9cb410ff61f20015add",
        "/a7816bf8f01cfea414140de5dae2223b00361a396177a9cb410ff61f20015ad",
    ] {
        assert!(rt; Toolchain::new(text) == Err(TypeError::BadDigest), "{text}");
    }
    let upper = Toolchain::new("BA7816BF8F01CFEA414140DE5DAE2223B00361A396177A9CB410FF61F20015AD")?;
    assert!(rt; upper.archive_id() == ABC);
    assert!(rt; "+007".parse::<JobId>() == Ok(JobId(7)));
    assert!(rt; "18446744073709551616".parse::<JobId>() == Err(TypeError::BadNumber));
    Ok(())
}

fn bytes(rt: &HostRuntime, of: &[u8]) -> Result<Bytes, Fail> {
    Ok(Bytes::from_slice(rt.alloc(), of)?)
}

fn text(rt: &HostRuntime, of: &str) -> Result<Text, Fail> {
    Ok(Text::of(rt.alloc(), of)?)
}

fn list(rt: &HostRuntime, of: &[u8]) -> Result<Items<Bytes>, Fail> {
    Ok(Items::new(vec![in rt.alloc(); bytes(rt, of)?]?))
}

fn pairs(rt: &HostRuntime, of: &[u8]) -> Result<Items<(Bytes, Bytes)>, Fail> {
    Ok(Items::new(vec![in rt.alloc(); (bytes(rt, b"LANG")?, bytes(rt, of)?)]?))
}

fn command(rt: &HostRuntime, argument: &[u8]) -> Result<SingleCompileCommand, Fail> {
    Ok(SingleCompileCommand {
        executable: bytes(rt, b"/usr/bin/cc")?,
        arguments: list(rt, argument)?,
        env_vars: pairs(rt, b"C")?,
        cwd: bytes(rt, b"/tmp")?,
        share_jobserver: true,
    })
}

#[test]
fn commands_are_sent_as_text(rt: HostRuntime) -> Result<(), Fail> {
    let sent = try_compile_command_to_dist(rt.alloc(), command(&rt, b"a.c")?)?.ok_or("no text")?;
    assert!(rt; sent.clone().is_ok());
    assert!(rt; sent.cwd.get() == "/tmp");
    Ok(())
}

#[test]
fn a_command_with_a_part_that_is_no_text_is_not_sent(rt: HostRuntime) -> Result<(), Fail> {
    let none = try_compile_command_to_dist(rt.alloc(), command(&rt, &[0xff])?)?;
    assert!(rt; none.is_none());
    Ok(())
}

#[test]
fn texts_are_converted(rt: HostRuntime) -> Result<(), Fail> {
    let texts = osstrings_to_strings(rt.alloc(), list(&rt, b"-c")?.get())?.ok_or("no text")?;
    assert!(rt; strings_to_osstrings(rt.alloc(), texts.get())?.get().len() == 1);
    assert!(rt; osstring_tuples_to_strings(rt.alloc(), pairs(&rt, b"C")?.get())?.is_some());
    assert!(rt; osstring_tuples_to_strings(rt.alloc(), pairs(&rt, &[0xff])?.get())?.is_none());
    Ok(())
}

fn abc(rt: &HostRuntime) -> Result<OutputData, Fail> {
    let alloc = rt.alloc();
    let mut source = MemSource::new(b"abc".to_vec(alloc)?, Vec::new(alloc));
    Ok(OutputData::try_from_reader(alloc, &mut source)?)
}

#[test]
fn an_output_tells_its_sizes(rt: HostRuntime) -> Result<(), Fail> {
    let data = abc(&rt)?;
    let sizes = data.lens().to_string(rt.alloc())?;
    assert!(rt; sizes.as_str() == "Size: 3->3");
    let mut again = data.into_reader();
    assert!(rt; OutputData::try_from_reader(rt.alloc(), &mut again)?.1 == 3);
    Ok(())
}

fn output(rt: &HostRuntime, code: Option<i32>, signal: Option<i32>) -> Result<ProcessOutput, Fail> {
    Ok(ProcessOutput::try_from(code, signal, bytes(rt, b"o")?, bytes(rt, b"e")?)?)
}

#[test]
fn a_process_told_a_code_or_a_signal(rt: HostRuntime) -> Result<(), Fail> {
    let killed = ProcessOutput::try_from(None, Some(9), bytes(&rt, b"")?, bytes(&rt, b"")?);
    assert!(rt; killed.err() == Some(TypeError::Signalled(9)));
    let ended = output(&rt, Some(1), Some(9))?.into_output();
    assert!(rt; (ended.code, ended.signal) == (1, None));
    Ok(())
}

#[test]
fn a_run_is_cloned(rt: HostRuntime) -> Result<(), Fail> {
    let run = RunJobResult::Complete(JobComplete {
        output: output(&rt, Some(0), None)?,
        outputs: Items::new(vec![in rt.alloc(); (text(&rt, "a.o")?, abc(&rt)?)]?),
    });
    assert!(rt; run.clone().is_ok());
    Ok(())
}

#[test]
fn an_allocation_is_cloned(rt: HostRuntime) -> Result<(), Fail> {
    let success = AllocJobResult::Success {
        job_alloc: JobAlloc {
            auth: text(&rt, "token")?,
            job_id: JobId(4096),
            server_id: ServerId::new(Addr::V4([127, 0, 0, 1], 10501)),
        },
        need_toolchain: true,
    };
    assert!(rt; success.clone().is_ok());
    let refused = UpdateJobStateResult::Fail {
        msg: text(&rt, "no")?,
    };
    assert!(rt; refused.clone().is_ok());
    Ok(())
}
