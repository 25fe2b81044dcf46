//! The key `rules`, which says by which version of the rules a scheduler goes, and which no build server has.
use command_line::cause::ConfigFault;
use command_line::read::{scheduler_config_in, server_config_in};
use dist_types::rules::Rules;
use line_program::fault::ConfigCause;
use std::alloc::Global;
use std::process::Abort;
use std::test::Fail;

const SCHEDULER: &str = "public_addr = \"127.0.0.1:10600\"\n\
    client_auth = { type = \"DANGEROUSLY_INSECURE\" }\n\
    server_auth = { type = \"token\", token = \"s1\" }\n";

const SERVER: &str = "cache_dir = \"/c\"\npublic_addr = \"127.0.0.1:10501\"\n\
    builder = { type = \"echo\" }\nscheduler_url = \"http://127.0.0.1:10600\"\n\
    scheduler_auth = { type = \"token\", token = \"s1\" }\n";

/// What stands behind the other keys of a scheduler's file, and the version that the file says.
const SAID: &[(&str, Rules)] = &[
    ("", Rules::One),
    ("rules = 1\n", Rules::One),
    ("rules = 2\n", Rules::Two),
    ("rules = 0x2\n", Rules::Two),
];

/// A file, whether it is a scheduler's, what stands behind its other keys, and the key that it is refused for.
const REFUSED: &[(&str, bool, &str, &str)] = &[
    (SCHEDULER, true, "rules = 0\n", "rules"),
    (SCHEDULER, true, "rules = 3\n", "rules"),
    (SCHEDULER, true, "rules = -1\n", "rules"),
    (SCHEDULER, true, "rules = 4294967298\n", "rules"),
    (SCHEDULER, true, "rules = \"2\"\n", "rules"),
    (SCHEDULER, true, "rules = 2.0\n", "rules"),
    (SCHEDULER, true, "rules = true\n", "rules"),
    (SCHEDULER, true, "rules = [2]\n", "rules"),
    (SCHEDULER, true, "[rules]\nversion = 2\n", "rules"),
    (SCHEDULER, true, "Rules = 2\n", "Rules"),
    (SCHEDULER, true, "rules = 3\nzeta = 1\n", "zeta"),
    ("", true, "rules = 3\n", "public_addr"),
    (SERVER, false, "rules = 1\n", "rules"),
    (SERVER, false, "rules = 2\n", "rules"),
    ("", false, "rules = 1\n", "rules"),
];

/// One text behind another.
fn joined(alloc: Global, before: &str, behind: &str) -> Result<String, Fail> {
    let mut text = String::from_str(alloc, before)?;
    text.push_str(behind)?;
    Ok(text)
}

/// The version that a scheduler's file says.
fn said(alloc: Global, text: &str) -> Option<Rules> {
    match scheduler_config_in(alloc, text.as_bytes()) {
        Ok(config) => Some(config.rules),
        Err(_) => None,
    }
}

/// Whether a fault is that of this key.
fn names(fault: ConfigFault, key: &str) -> bool {
    match fault {
        ConfigFault::Cause(ConfigCause::Key(name)) => name.get() == key,
        _ => false,
    }
}

/// Whether a file is refused for this key.
fn is_refused(alloc: Global, text: &str, is_scheduler: bool, key: &str) -> bool {
    if is_scheduler {
        match scheduler_config_in(alloc, text.as_bytes()) {
            Ok(_) => false,
            Err(fault) => names(fault, key),
        }
    } else {
        match server_config_in(alloc, text.as_bytes()) {
            Ok(_) => false,
            Err(fault) => names(fault, key),
        }
    }
}

fn says(rt: &impl Abort, alloc: Global, more: &str, rules: Rules) -> Result<(), Fail> {
    let text = joined(alloc, SCHEDULER, more)?;
    assert_eq!(rt; said(alloc, text.as_str()), Some(rules), "{more}");
    Ok(())
}

fn refuses(rt: &impl Abort, alloc: Global, row: &(&str, bool, &str, &str)) -> Result<(), Fail> {
    let (before, is_scheduler, more, key) = row;
    let text = joined(alloc, *before, *more)?;
    assert!(rt;
        is_refused(alloc, text.as_str(), *is_scheduler, *key),
        "{more}"
    );
    Ok(())
}

#[test]
fn a_schedulers_file_says_its_rules(rt: HostRuntime) -> Result<(), Fail> {
    for (more, rules) in SAID {
        says(&rt, rt.alloc(), *more, *rules)?;
    }
    Ok(())
}

#[test]
fn other_values_are_refused(rt: HostRuntime) -> Result<(), Fail> {
    for row in REFUSED {
        refuses(&rt, rt.alloc(), row)?;
    }
    Ok(())
}
