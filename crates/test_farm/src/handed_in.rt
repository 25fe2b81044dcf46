//! Farms over folders and builders that are handed in.
use crate::whole_farms::{BUILDER_ANSWERS, ORDINARY_BUILD, RESTART_KEEPS_ARCHIVES};
use dist_types::builder::BuildFault;
use dist_types::results::BuildResult;
use farm::begin;
use farm::build_row::BuildRow;
use farm::builder::FarmBuilder;
use farm::fault::FarmFault;
use farm::print::print_run;
use farm::run::Farm;
use farm::script::read_script;
use farm::setup::SetupServer;
use folders::calls::Calls;
use folders::mem_folder::MemFolder;
use std::alloc::Global;
use std::test::Fail;

/// The toolchain of the scripts, whose archive is `abc`, and that archive's SHA-256 (FIPS 180-4, B.1).
const ID: &str = "ba7816bf8f01cfea414140de5dae2223b00361a396177a9cb410ff61f20015ad";

const DIGEST: [u8; 32] = [
    0xba, 0x78, 0x16, 0xbf, 0x8f, 0x01, 0xcf, 0xea, 0x41, 0x41, 0x40, 0xde, 0x5d, 0xae, 0x22, 0x23,
    0xb0, 0x03, 0x61, 0xa3, 0x96, 0x17, 0x7a, 0x9c, 0xb4, 0x10, 0xff, 0x61, 0xf2, 0x00, 0x15, 0xad,
];

/// An empty folder of which no call fails.
#[tactic(auto, using(crate::proofs::Empty::none_twice))]
fn folder_of(alloc: Global) -> MemFolder {
    let calls = Calls::new(Vec::new(alloc), Vec::new(alloc));
    MemFolder::new(alloc, Vec::new(alloc), calls)
}

/// An empty folder, and a builder of the setup's lines, for each server.
fn handed(
    alloc: Global,
    servers: &[SetupServer],
) -> Result<(Vec<MemFolder>, Vec<FarmBuilder>), FarmFault> {
    let mut folders = Vec::new(alloc);
    let mut builders = Vec::new(alloc);
    for server in servers {
        folders.push(folder_of(alloc))?;
        match FarmBuilder::of(alloc, server.builder.get()) {
            Ok(builder) => builders.push(builder)?,
            Err(_) => return Err(FarmFault::Memory),
        }
    }
    Ok((folders, builders))
}

/// The run of a script over folders and builders that are handed in.
fn ran(alloc: Global, script: &str) -> Result<Farm<MemFolder, FarmBuilder>, FarmFault> {
    let (setup, events) = read_script(alloc, script.as_bytes())?;
    let (folders, builders) = handed(alloc, setup.servers.get())?;
    let count = setup.servers.get().len();
    if folders.as_slice().len() != count || builders.as_slice().len() != count {
        return Err(FarmFault::Memory);
    }
    let farm = Farm::new(alloc, &setup, folders, builders)?;
    match farm.run(&events) {
        Ok(farm) => Ok(farm),
        Err(_) => Err(FarmFault::Memory),
    }
}

#[test]
fn runs_as_a_script_does_where_nothing_fails(rt: HostRuntime) -> Result<(), Fail> {
    for (script, run) in [ORDINARY_BUILD, RESTART_KEEPS_ARCHIVES, BUILDER_ANSWERS] {
        let farm = ran(rt.alloc(), script)?;
        let text = print_run(rt.alloc(), &farm)?;
        assert_eq!(rt; text.as_str(), run);
    }
    Ok(())
}

/// Whether a row tells the build that every run request of the scripts asks for.
fn is_asked(row: &BuildRow) -> bool {
    let command = &row.command;
    row.toolchain.archive_id() == ID
        && row.digest == DIGEST
        && command.executable.get() == "cc"
        && command.arguments.get().is_empty()
        && command.env_vars.get().is_empty()
        && command.cwd.get() == "/"
        && row.outputs.get().len() == 1
        && row.outputs.get().iter().all(|name| name.get() == "o")
        && row.inputs.get() == b"in".as_slice()
}

/// Whether a build gave that code, standard output and single output `o`, and no standard error.
fn gave(built: &BuildResult, code: i32, stdout: &[u8], object: &[u8]) -> bool {
    built.output.code == code
        && built.output.stdout.get() == stdout
        && built.output.stderr.get().is_empty()
        && built.outputs.get().len() == 1
        && built.outputs.get().iter().all(|output| output.0.get() == "o"
            && output.1.0.get() == object)
}

/// What each build of a script's one builder gave, in order: `built`, `echoed`, `refused`, or another word where
/// its row tells another build; and `left` for each line that is left.
fn told(alloc: Global, builders: &[FarmBuilder]) -> Result<String, FarmFault> {
    let mut words = String::new(alloc);
    for builder in builders {
        for row in builder.rows() {
            let word = match &row.answer {
                _ if !is_asked(row) => "unasked ",
                Ok(built) if gave(built, 1, b"ok", b"object") => "built ",
                Ok(built) if gave(built, 0, b"in", b"o") => "echoed ",
                Ok(_) => "other ",
                Err(BuildFault::Refused) => "refused ",
                Err(BuildFault::Memory) => "memory ",
            };
            words.push_str(word)?;
        }
        for _ in builder.lines_left() {
            words.push_str("left ")?;
        }
    }
    Ok(words)
}

#[test]
fn tells_a_row_for_each_build(rt: HostRuntime) -> Result<(), Fail> {
    let cases = [
        (BUILDER_ANSWERS.0, "built refused "),
        (ORDINARY_BUILD.0, "echoed "),
        (RESTART_KEEPS_ARCHIVES.0, ""),
    ];
    for (script, words) in cases {
        let (_, builders) = ran(rt.alloc(), script)?.into_parts();
        let told = told(rt.alloc(), &builders)?;
        assert_eq!(rt; told.as_str(), words);
    }
    Ok(())
}

/// The builders that the farm of a script made, behind so many of its events.
fn made(alloc: Global, script: &str, count: usize) -> Result<Vec<FarmBuilder>, FarmFault> {
    let (setup, events) = read_script(alloc, script.as_bytes())?;
    let farm = begin::setup(alloc, &setup)?;
    let Some(events) = events.get(..count) else {
        return Err(FarmFault::Memory);
    };
    match farm.run(events) {
        Ok(farm) => Ok(farm.into_parts().1),
        Err(_) => Err(FarmFault::Memory),
    }
}

#[test]
fn hands_back_the_builders_that_a_script_made(rt: HostRuntime) -> Result<(), Fail> {
    // A script with two lines, of which the second refuses, is built from by its 12th and its 20th event; one
    // with none by its 12th.
    let cases = [
        (BUILDER_ANSWERS.0, 0, "left left "),
        (BUILDER_ANSWERS.0, 11, "left left "),
        (BUILDER_ANSWERS.0, 12, "built left "),
        (BUILDER_ANSWERS.0, 19, "built left "),
        (BUILDER_ANSWERS.0, 20, "built refused "),
        (ORDINARY_BUILD.0, 11, ""),
        (ORDINARY_BUILD.0, 14, "echoed "),
    ];
    for (script, count, words) in cases {
        let builders = made(rt.alloc(), script, count)?;
        let told = told(rt.alloc(), &builders)?;
        assert_eq!(rt; told.as_str(), words);
    }
    Ok(())
}
