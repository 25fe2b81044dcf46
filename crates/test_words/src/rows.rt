//! The rows: words behind the program's name, and whether they stand in a row. The first seventy-three are
//! among those of `tests/command-lines`.
use command_line::asked::asked_by;
use command_line::option_words::options_in;
use std::alloc::Global;
use std::process::Abort;
use std::test::Fail;

/// Words, parted by `|`, and whether they stand in a row.
const ROWS: &[(&str, bool)] = &[
    ("x|auth|generate-jwt-hs256-key", true),
    ("x|auth|generate-jwt-hs256-key|x", false),
    ("x|auth|generate-jwt-hs256-key|--bits|256", false),
    ("x|auth|generate-shared-token", true),
    ("x|auth|generate-shared-token|--bits|64", true),
    ("x|auth|generate-shared-token|--bits=64", true),
    ("x|auth|generate-shared-token|--bits|+064", true),
    ("x|auth|generate-shared-token|--bits|4096", true),
    ("x|auth|generate-shared-token|--bits|58", false),
    ("x|auth|generate-shared-token|--bits|70", false),
    ("x|auth|generate-shared-token|--bits|56", false),
    ("x|auth|generate-shared-token|--bits|4104", false),
    ("x|auth|generate-shared-token|--bits|8000", false),
    (
        "x|auth|generate-shared-token|--bits|18446744073709551616",
        false,
    ),
    ("x|auth|generate-shared-token|--bits|not_a_num", false),
    ("x|auth|generate-shared-token|--bits|-64", false),
    ("x|auth|generate-shared-token|--bits=-64", false),
    ("x|auth|generate-shared-token|--bits|+", false),
    ("x|auth|generate-shared-token|--bits|", false),
    ("x|auth|generate-shared-token|--bits=", false),
    ("x|auth|generate-shared-token|--bits", false),
    ("x|auth|generate-shared-token|--bits|64|--bits|64", false),
    ("x|auth|generate-shared-token|--|--bits|64", false),
    ("x|auth|generate-shared-token|--bits|--", false),
    ("x|auth|generate-shared-token|64", false),
    ("x|auth|generate-shared-token|-bits|64", false),
    ("x|auth|generate-shared-token|--Bits|64", false),
    ("x|auth|generate-shared-token|--bit|64", false),
    ("x|auth|generate-shared-token|--config|FILE", false),
    ("x|auth|--bits|64|generate-shared-token", false),
    (
        "x|auth|generate-jwt-hs256-server-token|--server|127.0.0.1:4321|--secret-key|AQIC",
        true,
    ),
    (
        "x|auth|generate-jwt-hs256-server-token|--secret-key|AQIC|--server|127.0.0.1:4321",
        true,
    ),
    (
        "x|auth|generate-jwt-hs256-server-token|--server=127.0.0.1:4321|--secret-key=AQIC",
        true,
    ),
    (
        "x|auth|generate-jwt-hs256-server-token|--server=127.0.0.1:4321|--secret-key|AQIC",
        true,
    ),
    (
        "x|auth|generate-jwt-hs256-server-token|--server|[::1]:4321|--secret-key|AQIC",
        true,
    ),
    (
        "x|auth|generate-jwt-hs256-server-token|--server|127.0.0.1:4321|--config|FILE",
        true,
    ),
    (
        "x|auth|generate-jwt-hs256-server-token|--server|127.0.0.1:4321|--config=FILE",
        true,
    ),
    (
        "x|auth|generate-jwt-hs256-server-token|--server|127.0.0.1:4321|--config|PLAIN",
        true,
    ),
    (
        "x|auth|generate-jwt-hs256-server-token|--server|127.0.0.1:4321|--config|NONE",
        true,
    ),
    (
        "x|auth|generate-jwt-hs256-server-token|--server|127.0.0.1:4321|--secret-key|very secret",
        true,
    ),
    (
        "x|auth|generate-jwt-hs256-server-token|--server|127.0.0.1:4321|--secret-key|AQI=",
        true,
    ),
    (
        "x|auth|generate-jwt-hs256-server-token|--server|127.0.0.1:4321|--secret-key|AQJ",
        true,
    ),
    (
        "x|auth|generate-jwt-hs256-server-token|--server|127.0.0.1:4321|--secret-key=-",
        true,
    ),
    (
        "x|auth|generate-jwt-hs256-server-token|--server|127.0.0.1:4321|--secret-key|-",
        true,
    ),
    (
        "x|auth|generate-jwt-hs256-server-token|--server|127.0.0.1:4321|--secret-key=-_-_",
        true,
    ),
    (
        "x|auth|generate-jwt-hs256-server-token|--server|127.0.0.1:4321|--secret-key|-_-_",
        false,
    ),
    (
        "x|auth|generate-jwt-hs256-server-token|--server|127.0.0.1:4321|--secret-key|",
        false,
    ),
    (
        "x|auth|generate-jwt-hs256-server-token|--server|127.0.0.1:4321",
        false,
    ),
    (
        "x|auth|generate-jwt-hs256-server-token|--server|127.0.0.1:4321|--secret-key|AQIC|--config|FILE",
        false,
    ),
    (
        "x|auth|generate-jwt-hs256-server-token|--secret-key|AQIC",
        false,
    ),
    (
        "x|auth|generate-jwt-hs256-server-token|--server|localhost:4321|--secret-key|AQIC",
        false,
    ),
    (
        "x|auth|generate-jwt-hs256-server-token|--server|127.0.0.1|--secret-key|AQIC",
        false,
    ),
    (
        "x|auth|generate-jwt-hs256-server-token|--server|[fe80::1%3]:80|--secret-key|AQIC",
        false,
    ),
    (
        "x|auth|generate-jwt-hs256-server-token|--server|127.0.0.1:4321|--server|127.0.0.1:4321|--secret-key|AQIC",
        false,
    ),
    (
        "x|auth|generate-jwt-hs256-server-token|--server|127.0.0.1:4321|--secret-key|AQIC|--bits|64",
        false,
    ),
    ("x|scheduler|--config|PLAIN", true),
    ("x|scheduler|--config=PLAIN", true),
    ("x|scheduler|--config|NONE", true),
    ("x|scheduler", false),
    ("x|scheduler|PLAIN", false),
    ("x|scheduler|--config|PLAIN|x", false),
    ("x|scheduler|--config|PLAIN|--server|127.0.0.1:1", false),
    ("x|server|--config|NONE", true),
    ("x|server|--config|PLAIN", true),
    ("x|server|--config", false),
    ("x|farm|--config|PLAIN", false),
    ("x|farm|farm", false),
    ("x|auth", false),
    ("x|auth|generate", false),
    ("x|Farm", false),
    ("x|", false),
    ("x|--config|PLAIN|scheduler", false),
    ("x|--", false),
    ("x", false),
    ("x|farm", true),
    ("x|storm|0", true),
    ("x|storm|9", true),
    ("x|storm|72", true),
    ("x|storm|100000", true),
    ("x|storm", false),
    ("x|storm|72|72", false),
    ("x|storm|100001", false),
    ("x|storm|18446744073709551616", false),
    ("x|storm|00", false),
    ("x|storm|072", false),
    ("x|storm|+72", false),
    ("x|storm|-72", false),
    ("x|storm|72x", false),
    ("x|storm|", false),
    ("x|storm|--|72", false),
    ("x|audit", true),
    ("x|audit|x", false),
    ("x|audit|", false),
    ("x|audit|--", false),
    ("x|audit|--config|FILE", false),
    ("x|Audit", false),
    ("x|audits", false),
    ("x|audi", false),
    ("x|farm|audit", false),
    ("x|auth|audit", false),
    ("audit", false),
    ("x|scheduler|--config|a|--config|b", false),
    ("x|scheduler|--config|--config", false),
    ("x|scheduler|--config=--config", true),
    ("x|scheduler|--config=a=b", true),
    ("x|scheduler|--=a", false),
    ("x|scheduler|--config|a|--", false),
    ("x|server|-c|a", false),
    (
        "x|auth|generate-shared-token|--bits|64|--secret-key|AQIC",
        false,
    ),
];

fn holds(rt: &impl Abort, alloc: Global, text: &str, is_row: bool) -> Result<(), Fail> {
    let mut words = Vec::new(alloc);
    for word in text.split('|') {
        words.push(String::from_str(alloc, word)?)?;
    }
    let asked = asked_by(alloc, &words).expect(rt, "memory");
    assert_eq!(rt; asked.is_some(), is_row, "{text}");
    Ok(())
}

#[test]
fn words_stand_in_their_rows(rt: HostRuntime) -> Result<(), Fail> {
    for (text, is_row) in ROWS {
        holds(&rt, rt.alloc(), *text, *is_row)?;
    }
    Ok(())
}

/// What the options say is taken by their names.
#[test]
fn options_are_taken_by_name(rt: HostRuntime) -> Result<(), Fail> {
    let alloc = rt.alloc();
    let mut words = Vec::new(alloc);
    for word in ["--config", "-", "--server=a=b"] {
        words.push(String::from_str(alloc, word)?)?;
    }
    let said = options_in(alloc, &words)
        .expect(&rt, "memory")
        .expect(&rt, "options");
    assert_eq!(rt; said.config, Some("-"));
    assert_eq!(rt; said.server, Some("a=b"));
    assert_eq!(rt; said.bits, None);
    assert_eq!(rt; said.secret_key, None);
    Ok(())
}
