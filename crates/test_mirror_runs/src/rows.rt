//! Scripts, and what they print: two worked rows, and others of an outside model.
use crate::ran::{NOTHING, called};
use std::alloc::Global;
use std::test::Fail;

/// A script, and its output.
const ROWS: &[(&str, &str)] = &[
    // fetched
    (
        "near 10\n\
        far 10\n\
        put far 616263\n\
        get ba7816bf8f01cfea414140de5dae2223b00361a396177a9cb410ff61f20015ad\n\
        get ba7816bf8f01cfea414140de5dae2223b00361a396177a9cb410ff61f20015ad\n",
        "put ba7816bf8f01cfea414140de5dae2223b00361a396177a9cb410ff61f20015ad\n\
        fetched 616263\n\
        near 616263\n",
    ),
    // lies
    (
        "near 10\n\
        far 10\n\
        lie 00\n\
        get ba7816bf8f01cfea414140de5dae2223b00361a396177a9cb410ff61f20015ad\n\
        lose\n\
        get ba7816bf8f01cfea414140de5dae2223b00361a396177a9cb410ff61f20015ad\n\
        get ba7816bf8f01cfea414140de5dae2223b00361a396177a9cb410ff61f20015ad\n",
        "lie\n\
        wrong digest\n\
        lose\n\
        fetch fault\n\
        not anywhere\n",
    ),
    // empty archive
    (
        "near 0\n\
        far 0\n\
        put far -\n\
        get e3b0c44298fc1c149afbf4c8996fb92427ae41e4649b934ca495991b7852b855\n\
        get e3b0c44298fc1c149afbf4c8996fb92427ae41e4649b934ca495991b7852b855\n\
        put near 61\n",
        "put e3b0c44298fc1c149afbf4c8996fb92427ae41e4649b934ca495991b7852b855\n\
        fetched -\n\
        near -\n\
        too large\n",
    ),
    // too large near
    (
        "near 2\n\
        far 10\n\
        put far 616263\n\
        get ba7816bf8f01cfea414140de5dae2223b00361a396177a9cb410ff61f20015ad\n\
        get ba7816bf8f01cfea414140de5dae2223b00361a396177a9cb410ff61f20015ad\n\
        put near 616263\n",
        "put ba7816bf8f01cfea414140de5dae2223b00361a396177a9cb410ff61f20015ad\n\
        fetched unlisted 616263\n\
        fetched unlisted 616263\n\
        too large\n",
    ),
    // a true lie
    (
        "near 10\n\
        far 0\n\
        lie 616263\n\
        get ba7816bf8f01cfea414140de5dae2223b00361a396177a9cb410ff61f20015ad\n\
        get ba7816bf8f01cfea414140de5dae2223b00361a396177a9cb410ff61f20015ad\n\
        lie -\n\
        get e3b0c44298fc1c149afbf4c8996fb92427ae41e4649b934ca495991b7852b855\n",
        "lie\n\
        fetched 616263\n\
        near 616263\n\
        lie\n\
        fetched -\n",
    ),
    // upper case, skipped lines, no last end
    (
        "# mirror\n\
        \n\
        near 10\n\
        #\n\
        far 10\n\
        put near 6A6b\n\
        get 31B25869B39F1BAA9E7FC279255901B696C36629E57294D4455F479534139852",
        "put 31b25869b39f1baa9e7fc279255901b696c36629e57294d4455f479534139852\n\
        near 6a6b\n",
    ),
    // asking makes most recent far
    (
        "near 0\n\
        far 10\n\
        put far 61\n\
        put far 62626262\n\
        get ca978112ca1bbdcafac231b39a23dc4da786eff8147c4e72b9807785afee48bb\n\
        put far 636363636363\n\
        get ca978112ca1bbdcafac231b39a23dc4da786eff8147c4e72b9807785afee48bb\n\
        get 81cc5b17018674b401b42f35ba07bb79e211239c23bffe658da1577e3e646877\n\
        get 8c0e24f73bf5fe793dc45e5f90b5a9682c0cb345f524ddef77ab2859b9352d52\n",
        "put ca978112ca1bbdcafac231b39a23dc4da786eff8147c4e72b9807785afee48bb\n\
        put 81cc5b17018674b401b42f35ba07bb79e211239c23bffe658da1577e3e646877\n\
        fetched unlisted 61\n\
        put 8c0e24f73bf5fe793dc45e5f90b5a9682c0cb345f524ddef77ab2859b9352d52\n\
        fetched unlisted 61\n\
        not anywhere\n\
        fetched unlisted 636363636363\n",
    ),
    // near drops the least recent
    (
        "near 10\n\
        far 20\n\
        put far 61\n\
        put far 62626262\n\
        get ca978112ca1bbdcafac231b39a23dc4da786eff8147c4e72b9807785afee48bb\n\
        get 81cc5b17018674b401b42f35ba07bb79e211239c23bffe658da1577e3e646877\n\
        get ca978112ca1bbdcafac231b39a23dc4da786eff8147c4e72b9807785afee48bb\n\
        put near 636363636363\n\
        get 81cc5b17018674b401b42f35ba07bb79e211239c23bffe658da1577e3e646877\n\
        get 8c0e24f73bf5fe793dc45e5f90b5a9682c0cb345f524ddef77ab2859b9352d52\n\
        get ca978112ca1bbdcafac231b39a23dc4da786eff8147c4e72b9807785afee48bb\n",
        "put ca978112ca1bbdcafac231b39a23dc4da786eff8147c4e72b9807785afee48bb\n\
        put 81cc5b17018674b401b42f35ba07bb79e211239c23bffe658da1577e3e646877\n\
        fetched 61\n\
        fetched 62626262\n\
        near 61\n\
        put 8c0e24f73bf5fe793dc45e5f90b5a9682c0cb345f524ddef77ab2859b9352d52\n\
        fetched 62626262\n\
        near 636363636363\n\
        fetched 61\n",
    ),
    // each waits for one ask
    (
        "near 10\n\
        far 10\n\
        put near 61\n\
        lose\n\
        lie 616263\n\
        get ca978112ca1bbdcafac231b39a23dc4da786eff8147c4e72b9807785afee48bb\n\
        get ba7816bf8f01cfea414140de5dae2223b00361a396177a9cb410ff61f20015ad\n\
        get ba7816bf8f01cfea414140de5dae2223b00361a396177a9cb410ff61f20015ad\n\
        get ba7816bf8f01cfea414140de5dae2223b00361a396177a9cb410ff61f20015ad\n",
        "put ca978112ca1bbdcafac231b39a23dc4da786eff8147c4e72b9807785afee48bb\n\
        lose\n\
        lie\n\
        near 61\n\
        fetch fault\n\
        fetched 616263\n\
        near 616263\n",
    ),
    // replaced
    (
        "near 10\n\
        far 3\n\
        put far 616263\n\
        put far 616263\n\
        get ba7816bf8f01cfea414140de5dae2223b00361a396177a9cb410ff61f20015ad\n",
        "put ba7816bf8f01cfea414140de5dae2223b00361a396177a9cb410ff61f20015ad\n\
        put ba7816bf8f01cfea414140de5dae2223b00361a396177a9cb410ff61f20015ad\n\
        fetched 616263\n",
    ),
];

/// A script with a faulty line, and the error text.
const FAULTY: &[(&str, &str)] = &[
    ("", "sccache_mirror: bad line 1\n"),
    ("near 10\n", "sccache_mirror: bad line 2\n"),
    (
        "far 10\n\
        near 10\n",
        "sccache_mirror: bad line 1\n",
    ),
    (
        "near 10\n\
        near 10\n",
        "sccache_mirror: bad line 2\n",
    ),
    (
        "near 10\n\
        far 10\n\
        far 10\n",
        "sccache_mirror: bad line 3\n",
    ),
    (
        "near 10\n\
        lose\n",
        "sccache_mirror: bad line 2\n",
    ),
    (
        "near 10\n\
        far 10 \n",
        "sccache_mirror: bad line 2\n",
    ),
    ("near 010\n", "sccache_mirror: bad line 1\n"),
    (
        "near 18446744073709551616\n",
        "sccache_mirror: bad line 1\n",
    ),
    (
        "near 18446744073709551615\n\
        far 0\n\
        get gggggggggggggggggggggggggggggggggggggggggggggggggggggggggggggggg\n",
        "sccache_mirror: bad line 3\n",
    ),
    (
        "near 1\n\
        far 1\n\
        put near 0\n",
        "sccache_mirror: bad line 3\n",
    ),
    (
        "near 1\n\
        far 1\n\
        lie\n",
        "sccache_mirror: bad line 3\n",
    ),
    (
        "near 1\n\
        far 1\n\
        \n\
        \n\
        get -\n",
        "sccache_mirror: bad line 5\n",
    ),
];

fn prints(alloc: Global, row: &(&str, &str)) -> Result<bool, Fail> {
    let ran = called(alloc, "sccache_mirror", row.0, NOTHING)?;
    Ok(ran.status == 0 && ran.out.as_slice() == row.1.as_bytes() && ran.errs.is_empty())
}

fn is_refused(alloc: Global, row: &(&str, &str)) -> Result<bool, Fail> {
    let ran = called(alloc, "sccache_mirror", row.0, NOTHING)?;
    Ok(ran.status == 1 && ran.out.is_empty() && ran.errs.as_slice() == row.1.as_bytes())
}

#[test]
fn prints_each_line(rt: HostRuntime) -> Result<(), Fail> {
    for (place, row) in ROWS.iter().enumerate() {
        assert!(rt; prints(rt.alloc(), row)?, "row {place}");
    }
    Ok(())
}

#[test]
fn names_the_first_faulty_line(rt: HostRuntime) -> Result<(), Fail> {
    for (place, row) in FAULTY.iter().enumerate() {
        assert!(rt; is_refused(rt.alloc(), row)?, "row {place}");
    }
    Ok(())
}
