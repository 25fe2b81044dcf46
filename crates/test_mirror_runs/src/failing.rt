//! Each status, and each call of the outside that fails.
use crate::ran::{Failing, NEVER, called};
use std::alloc::Global;
use std::test::Fail;

const NAME: &str = "sccache_mirror";

const FINE: &str = "near 10\nfar 10\nlose\nlose\n";

/// Words, script, the read, the write and the telling that fail, status, output, error text.
const ROWS: &[(&str, &str, [u64; 3], u8, &str, &str)] = &[
    (NAME, FINE, [NEVER, NEVER, NEVER], 0, "lose\nlose\n", ""),
    (
        NAME,
        "near 10\nfar 10\nlost\n",
        [NEVER, NEVER, NEVER],
        1,
        "",
        "sccache_mirror: bad line 3\n",
    ),
    (
        "sccache_mirror|far",
        FINE,
        [0, 0, NEVER],
        2,
        "",
        "sccache_mirror: these words name no command\n",
    ),
    (
        NAME,
        FINE,
        [0, NEVER, NEVER],
        4,
        "",
        "sccache_mirror: read fault\n",
    ),
    (
        NAME,
        "lost\n",
        [1, NEVER, NEVER],
        4,
        "",
        "sccache_mirror: read fault\n",
    ),
    (
        NAME,
        FINE,
        [NEVER, 0, NEVER],
        5,
        "",
        "sccache_mirror: write fault\n",
    ),
    (
        NAME,
        FINE,
        [NEVER, 1, NEVER],
        5,
        "lose\n",
        "sccache_mirror: write fault\n",
    ),
    (NAME, FINE, [NEVER, 2, 0], 0, "lose\nlose\n", ""),
    (NAME, "lost\n", [NEVER, NEVER, 0], 5, "", ""),
    (NAME, "lost\n", [NEVER, NEVER, 1], 5, "", NAME),
    (NAME, FINE, [0, NEVER, 0], 5, "", ""),
    (NAME, FINE, [NEVER, 1, 0], 5, "lose\n", ""),
];

fn holds(alloc: Global, row: &(&str, &str, [u64; 3], u8, &str, &str)) -> Result<bool, Fail> {
    let [read, write, tell] = row.2;
    let ran = called(alloc, row.0, row.1, Failing { read, write, tell })?;
    Ok(
        ran.status == row.3
            && ran.out.as_slice() == row.4.as_bytes()
            && ran.errs.as_slice() == row.5.as_bytes(),
    )
}

#[test]
fn tells_each_fault_by_its_status(rt: HostRuntime) -> Result<(), Fail> {
    for (place, row) in ROWS.iter().enumerate() {
        assert!(rt; holds(rt.alloc(), row)?, "row {place}");
    }
    Ok(())
}
