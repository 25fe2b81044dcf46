//! Words with a file, and what comes of them.
use crate::called::{Failing, NOTHING, call};
use std::alloc::Global;
use std::process::Abort;
use std::test::Fail;

const SCHEDULER: &str = "public_addr = \"127.0.0.1:10600\"\n\
    client_auth = { type = \"DANGEROUSLY_INSECURE\" }\n\
    server_auth = { type = \"token\", token = \"s1\" }\n";

const SERVER: &str = "cache_dir = \"/c\"\npublic_addr = \"127.0.0.1:10501\"\n\
    builder = { type = \"echo\" }\nscheduler_url = \"http://127.0.0.1:10600\"\n\
    scheduler_auth = { type = \"token\", token = \"s1\" }\n";

const VALIDATED: &str =
    "public_addr = \"127.0.0.1:10600\"\n\n[client_auth]\ntype = \"jwt_validate\"\n\
    audience = \"a\"\nissuer = \"i\"\njwks_url = \"http://127.0.0.1/jwks\"\n\n\
    [server_auth]\ntype = \"DANGEROUSLY_INSECURE\"\n";

const USAGE: &str = "sccache-dist: these words name no command\n";

const NO_RUN: &str = "sccache-dist: audit refused line 1: text\n";

const BAD_KEY: &str = "sccache-dist: bad configuration: key secret_key\n";

const BAD_CLIENT: &str = "sccache-dist: bad configuration: key client_auth\n";

/// By Python's hmac: the token of 127.0.0.1:4321 under the bytes 1, 2 and 2.
const TOKEN: &str = "eyJ0eXAiOiJKV1QiLCJhbGciOiJIUzI1NiJ9.\
    eyJleHAiOjAsInNlcnZlcl9pZCI6IjEyNy4wLjAuMTo0MzIxIn0.OQ74DnkpoWFjRW8RTHnaFvDZpbF94TplHdqQSsBvP_k\n";

/// Words behind the program's name, the file, the status, the output, the error text, and how often
/// something was to serve.
const ROWS: &[(&str, &str, u8, &str, &str, usize)] = &[
    (
        "x|auth|generate-jwt-hs256-key",
        "",
        0,
        "AAAAAAAAAAAAAAAAAAAAAAAAAAAAAAAAAAAAAAAAAAA\n",
        "",
        0,
    ),
    (
        "x|auth|generate-shared-token|--bits|64",
        "",
        0,
        "AAAAAAAAAAA\n",
        "",
        0,
    ),
    (
        "x|auth|generate-shared-token|--bits|70",
        "",
        2,
        "",
        USAGE,
        0,
    ),
    (
        "x|auth|generate-shared-token|--bits|58",
        "",
        2,
        "",
        USAGE,
        0,
    ),
    (
        "x|auth|generate-shared-token|--bits|8000",
        "",
        2,
        "",
        USAGE,
        0,
    ),
    (
        "x|auth|generate-shared-token|--bits|not_a_num",
        "",
        2,
        "",
        USAGE,
        0,
    ),
    (
        "x|auth|generate-jwt-hs256-server-token|--server|127.0.0.1:4321|--secret-key|AQIC",
        "",
        0,
        TOKEN,
        "",
        0,
    ),
    (
        "x|auth|generate-jwt-hs256-server-token|--server|127.0.0.1:4321|--secret-key|very secret",
        "",
        6,
        "",
        BAD_KEY,
        0,
    ),
    (
        "x|auth|generate-jwt-hs256-server-token|--server|127.0.0.1:4321",
        "",
        2,
        "",
        USAGE,
        0,
    ),
    (
        "x|auth|generate-jwt-hs256-server-token|--server|127.0.0.1:4321|--secret-key|AQIC|--config|f",
        "",
        2,
        "",
        USAGE,
        0,
    ),
    ("x|scheduler|--config|f", VALIDATED, 6, "", BAD_CLIENT, 0),
    ("x|scheduler|--config|f", SCHEDULER, 0, "", "", 1),
    ("x|server|--config=f", SERVER, 0, "", "", 1),
    (
        "x|server|--config=g",
        SERVER,
        6,
        "",
        "sccache-dist: bad configuration: file missing\n",
        0,
    ),
    (
        "x|storm|0",
        "",
        0,
        "storm 0 core 0 reserved 0 built 0 stored 0 listed 0 open 0\n",
        "",
        0,
    ),
    (
        "x|storm|72",
        "",
        0,
        "storm 72 core 40 reserved 16 built 0 stored 0 listed 0 open 16\n",
        "",
        0,
    ),
    (
        "x|storm|225",
        "",
        0,
        "storm 225 core 97 reserved 16 built 16 stored 8 listed 8 open 0\n",
        "",
        0,
    ),
    ("x|storm|100001", "", 2, "", USAGE, 0),
    ("x|audit", "", 8, "", NO_RUN, 0),
    ("x|audit|x", "", 2, "", USAGE, 0),
];

fn holds(
    rt: &impl Abort,
    alloc: Global,
    row: &(&str, &str, u8, &str, &str, usize),
) -> Result<(), Fail> {
    let (words, content, status, out, errs, served) = row;
    let called = call(alloc, *words, *content, NOTHING)?;
    assert_eq!(rt; called.status, *status);
    assert_eq!(rt; called.out.as_slice(), out.as_bytes());
    assert_eq!(rt; called.errs.as_slice(), errs.as_bytes());
    assert_eq!(rt; called.served, *served);
    Ok(())
}

#[test]
fn words_do_what_their_rows_say(rt: HostRuntime) -> Result<(), Fail> {
    for row in ROWS {
        holds(&rt, rt.alloc(), row)?;
    }
    Ok(())
}

/// A file that fails and something that serves and fails are told with their own statuses.
#[test]
fn faults_are_told(rt: HostRuntime) -> Result<(), Fail> {
    let file = Failing { file: 0, ..NOTHING };
    let unread = call(rt.alloc(), "x|scheduler|--config|f", SCHEDULER, file)?;
    assert_eq!(rt; unread.status, 6);
    assert_eq!(rt;
        unread.errs.as_slice(),
        b"sccache-dist: bad configuration: file unreadable\n".as_slice()
    );
    let serve = Failing {
        serve: 0,
        ..NOTHING
    };
    let failed = call(rt.alloc(), "x|scheduler|--config|f", SCHEDULER, serve)?;
    assert_eq!(rt; failed.status, 7);
    assert_eq!(rt;
        failed.errs.as_slice(),
        b"sccache-dist: serve fault\n".as_slice()
    );
    assert_eq!(rt; failed.served, 1);
    Ok(())
}
