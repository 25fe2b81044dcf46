//! Each call of the outside that fails, and what is told then.
use crate::ran::{Failing, NEVER, NOTHING, called};
use std::alloc::Global;
use std::test::Fail;

const NAME: &str = "sccache_quota";

const FINE: &str = "ids 0\n\
    client a limit 0\n\
    0 alloc a\n\
    0 alloc b\n\
    0 undo 0\n";

const FAULTY: &str = "ids\n";

const READ: &str = "sccache_quota: read fault\n";

const WRITE: &str = "sccache_quota: write fault\n";

/// Words, script, the read, the write and the telling that fail, status, error text. Nothing is written.
const ROWS: &[(&str, &str, [u64; 3], u8, &str)] = &[
    (NAME, FINE, [0, NEVER, NEVER], 4, READ),
    (NAME, FINE, [1, NEVER, NEVER], 4, READ),
    (NAME, FAULTY, [1, NEVER, NEVER], 4, READ),
    (NAME, FINE, [0, NEVER, 0], 5, ""),
    (NAME, FINE, [NEVER, 0, NEVER], 5, WRITE),
    (NAME, FINE, [NEVER, 0, 0], 5, ""),
    (NAME, FAULTY, [NEVER, NEVER, 0], 5, ""),
    (NAME, FAULTY, [NEVER, NEVER, 1], 5, NAME),
    (
        NAME,
        FAULTY,
        [NEVER, 0, NEVER],
        1,
        "sccache_quota: bad line 1\n",
    ),
    (
        "sccache_quota|ids",
        FINE,
        [0, 0, NEVER],
        2,
        "sccache_quota: these words name no command\n",
    ),
    ("sccache_quota|ids", FINE, [0, 0, 0], 5, ""),
    // a script without events writes nothing
    (NAME, "ids 0\n", [NEVER, 0, NEVER], 0, ""),
];

fn holds(alloc: Global, row: &(&str, &str, [u64; 3], u8, &str)) -> Result<bool, Fail> {
    let [read, write, tell] = row.2;
    let ran = called(alloc, row.0, row.1, Failing { read, write, tell })?;
    Ok(ran.status == row.3 && ran.out.is_empty() && ran.errs.as_slice() == row.4.as_bytes())
}

/// Whether a run whose write of that number fails wrote a front of the text and told so, or made fewer writes and
/// wrote all of it.
fn stops_there(alloc: Global, write: u64, whole: &[u8]) -> Result<bool, Fail> {
    let failing = Failing {
        read: NEVER,
        write,
        tell: NEVER,
    };
    let ran = called(alloc, NAME, FINE, failing)?;
    let told = ran.status == 5 && ran.errs.as_slice() == WRITE.as_bytes();
    let fine = ran.status == 0 && ran.errs.is_empty();
    Ok((told && whole.starts_with(ran.out.as_slice())) || (fine && ran.out.as_slice() == whole))
}

#[test]
fn tells_each_fault_by_its_status(rt: HostRuntime) -> Result<(), Fail> {
    for (place, row) in ROWS.iter().enumerate() {
        assert!(rt; holds(rt.alloc(), row)?, "row {place}");
    }
    Ok(())
}

#[test]
fn writes_a_front_where_a_write_fails(rt: HostRuntime) -> Result<(), Fail> {
    let whole = called(rt.alloc(), NAME, FINE, NOTHING)?;
    assert_eq!(rt; whole.status, 0);
    for write in 0..40 {
        assert!(rt;
            stops_there(rt.alloc(), write, whole.out.as_slice())?,
            "write {write}"
        );
    }
    Ok(())
}
