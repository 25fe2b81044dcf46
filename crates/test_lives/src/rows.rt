//! Inputs, and what they print: those of the table, small ones that were written by hand, and faulty ones.
use crate::ran::{NOTHING, called};
use crate::table;
use std::alloc::Global;
use std::test::Fail;

/// An input, and its output.
const ROWS: &[(&str, &str)] = &[
    // a range of one id
    (
        "scheduler 127.0.0.1:10600 base 0 count 0 client c1 plain s1\n\
        life 5 1\n",
        "life 0 from 5 ids 1\n\
        run 1 entries 0\n\
        books\n\
        ids base 7 count 18446744073709551614\n\
        end\n",
    ),
    // version 2, and no last line end
    (
        "version 2\n\
        scheduler 127.0.0.1:10600 base 0 count 0 client c1 plain s1\n\
        life 0 1",
        "life 0 from 0 ids 1\n\
        run 2 entries 0\n\
        books\n\
        ids base 2 count 18446744073709551614\n\
        end\n",
    ),
    // all ids but one, and the one that is left
    (
        "scheduler 127.0.0.1:10600 base 0 count 0 client c1 plain s1\n\
        life 0 18446744073709551615\n\
        life 18446744073709551615 1\n",
        "life 0 from 0 ids 18446744073709551615\n\
        run 1 entries 0\n\
        books\n\
        ids base 0 count 0\n\
        end\n\
        life 1 from 18446744073709551615 ids 1\n\
        run 1 entries 0\n\
        books\n\
        ids base 1 count 18446744073709551614\n\
        end\n",
    ),
    // ranges that touch, round the greatest number too
    (
        "scheduler 127.0.0.1:10600 base 0 count 0 client c1 plain s1\n\
        life 1 1\n\
        life 18446744073709551615 2\n\
        life 18446744073709551614 1\n\
        #\n\
        life 2 7\n",
        "life 0 from 1 ids 1\n\
        run 1 entries 0\n\
        books\n\
        ids base 3 count 18446744073709551614\n\
        end\n\
        life 1 from 18446744073709551615 ids 2\n\
        run 1 entries 0\n\
        books\n\
        ids base 2 count 18446744073709551613\n\
        end\n\
        life 2 from 18446744073709551614 ids 1\n\
        run 1 entries 0\n\
        books\n\
        ids base 0 count 18446744073709551614\n\
        end\n\
        life 3 from 2 ids 7\n\
        run 1 entries 0\n\
        books\n\
        ids base 10 count 18446744073709551608\n\
        end\n",
    ),
    // entries are numbered from 0 in each life
    (
        "scheduler 127.0.0.1:10600 base 0 count 0 client c1 plain s1\n\
        server 127.0.0.1:10501 cpus 8 nonce 7 key 010202 capacity 1000\n\
        life 9 1\n\
        0 restart 127.0.0.1:10501 key 0A nonce 8\n\
        \n\
        life 8 1\n\
        5 fail 0\n\
        3 beat [::1]:80\n",
        "life 0 from 9 ids 1\n\
        run 1 entries 1\n\
        entry 0 0 restart 127.0.0.1:10501 key 0a nonce 8\n\
        step 127.0.0.1:10501 opened -\n\
        books\n\
        ids base 11 count 18446744073709551614\n\
        end\n\
        life 1 from 8 ids 1\n\
        run 1 entries 2\n\
        entry 0 5 fail 0\n\
        word void\n\
        entry 1 3 beat [::1]:80\n\
        word void\n\
        books\n\
        ids base 10 count 18446744073709551614\n\
        end\n",
    ),
];

/// Words, an input with a fault, its status, and the fault that is told.
const FAULTY: &[(&str, &str, u8, &str)] = &[
    (
        "sccache_lives|word",
        "scheduler 127.0.0.1:10600 base 0 count 0 client c1 plain s1\n\
        life 0 1\n",
        2,
        "these words name no command",
    ),
    (
        "sccache_lives|",
        "scheduler 127.0.0.1:10600 base 0 count 0 client c1 plain s1\n\
        life 0 1\n",
        2,
        "these words name no command",
    ),
    ("sccache_lives", "", 1, "bad line 1"),
    (
        "sccache_lives",
        "# none\n\
        \n",
        1,
        "bad line 3",
    ),
    (
        "sccache_lives",
        "scheduler 127.0.0.1:10600 base 0 count 0 client c1 plain s1\n",
        1,
        "bad line 2",
    ),
    (
        "sccache_lives",
        "scheduler 127.0.0.1:10600 base 0 count 0 client c1 plain s1\n\
        server 127.0.0.1:10501 cpus 8 nonce 7 key 010202 capacity 1000\n\
        \n\
        #",
        1,
        "bad line 5",
    ),
    (
        "sccache_lives",
        "scheduler 127.0.0.1:10600 base 1 count 0 client c1 plain s1\n\
        life 0 1\n",
        1,
        "bad line 1",
    ),
    (
        "sccache_lives",
        "scheduler 127.0.0.1:10600 base 0 count 1 client c1 plain s1\n\
        life 0 1\n",
        1,
        "bad line 1",
    ),
    (
        "sccache_lives",
        "scheduler 127.0.0.1:10600 base 0 count 0 client c1 plain s1\n\
        0 fail 0\n\
        life 0 1\n",
        1,
        "bad line 2",
    ),
    (
        "sccache_lives",
        "scheduler 127.0.0.1:10600 base 0 count 0 client c1 plain s1\n\
        0 beat [::1%4]:1\n\
        life 0 1\n",
        1,
        "bad line 2",
    ),
    (
        "sccache_lives",
        "scheduler 127.0.0.1:10600 base 0 count 0 client c1 plain s1\n\
        life 0 0\n",
        1,
        "bad line 2",
    ),
    (
        "sccache_lives",
        "scheduler 127.0.0.1:10600 base 0 count 0 client c1 plain s1\n\
        life 00 1\n",
        1,
        "bad line 2",
    ),
    (
        "sccache_lives",
        "scheduler 127.0.0.1:10600 base 0 count 0 client c1 plain s1\n\
        life 0 18446744073709551616\n",
        1,
        "bad line 2",
    ),
    (
        "sccache_lives",
        "scheduler 127.0.0.1:10600 base 0 count 0 client c1 plain s1\n\
        version 2\n\
        life 0 1\n",
        1,
        "bad line 2",
    ),
    (
        "sccache_lives",
        "scheduler 127.0.0.1:10600 base 0 count 0 client c1 plain s1\n\
        life 0 1\n\
        server 127.0.0.1:10501 cpus 8 nonce 7 key 010202 capacity 1000\n",
        1,
        "bad line 3",
    ),
    (
        "sccache_lives",
        "scheduler 127.0.0.1:10600 base 0 count 0 client c1 plain s1\n\
        life 0 1\n\
        scheduler 127.0.0.1:10600 base 0 count 0 client c1 plain s1\n",
        1,
        "bad line 3",
    ),
    (
        "sccache_lives",
        "scheduler 127.0.0.1:10600 base 0 count 0 client c1 plain s1\n\
        life 0 1\n\
        server [::1%4]:10501 cpus 8 nonce 7 key 010202 capacity 1000\n",
        1,
        "bad line 3",
    ),
    (
        "sccache_lives",
        "scheduler 127.0.0.1:10600 base 0 count 0 client c1 plain s1\n\
        life 0 1\n\
        0 fail 0\n\
        life 1 1\n\
        0 fail\n\
        0 fail 0\n",
        1,
        "bad line 5",
    ),
    (
        "sccache_lives",
        "scheduler 127.0.0.1:10600 base 0 count 0 client c1 plain s1\n\
        server 127.0.0.1:10501 cpus 8 nonce 7 key 010202 capacity 1000\n\
        server 127.0.0.1:10501 cpus 8 nonce 7 key 010202 capacity 1000\n\
        life 0 1\n",
        1,
        "duplicate address on line 3",
    ),
    (
        "sccache_lives",
        "scheduler 127.0.0.1:10600 base 0 count 0 client c1 plain s1\n\
        server 127.0.0.1:10600 cpus 8 nonce 7 key 010202 capacity 1000\n\
        life 0 1\n",
        1,
        "duplicate address on line 2",
    ),
    (
        "sccache_lives",
        "scheduler 127.0.0.1:10600 base 0 count 0 client c1 plain s1\n\
        server [::1%4]:10501 cpus 8 nonce 7 key 010202 capacity 1000\n\
        life 0 1\n",
        1,
        "scoped address on line 2",
    ),
    (
        "sccache_lives",
        "scheduler 127.0.0.1:10600 base 0 count 0 client c1 plain s1\n\
        life 0 1\n\
        life 1 1\n\
        0 beat [::1%4]:1\n\
        life 0 1\n",
        1,
        "scoped address on line 4",
    ),
    (
        "sccache_lives",
        "scheduler 127.0.0.1:10600 base 0 count 0 client c1 plain s1\n\
        server 127.0.0.1:10501 cpus 8 nonce 7 key 010202 capacity 1000\n\
        life 100 2\n\
        life 101 5\n",
        1,
        "overlapping ids on line 4",
    ),
    (
        "sccache_lives",
        "scheduler 127.0.0.1:10600 base 0 count 0 client c1 plain s1\n\
        life 0 18446744073709551615\n\
        life 0 18446744073709551615\n",
        1,
        "overlapping ids on line 3",
    ),
    (
        "sccache_lives",
        "scheduler 127.0.0.1:10600 base 0 count 0 client c1 plain s1\n\
        life 1 18446744073709551615\n\
        life 0 1\n\
        life 18446744073709551615 1\n",
        1,
        "overlapping ids on line 4",
    ),
    (
        "sccache_lives",
        "scheduler 127.0.0.1:10600 base 0 count 0 client c1 plain s1\n\
        life 18446744073709551615 2\n\
        life 0 1\n",
        1,
        "overlapping ids on line 3",
    ),
    (
        "sccache_lives",
        "scheduler 127.0.0.1:10600 base 0 count 0 client c1 plain s1\n\
        life 0 1\n\
        life 18446744073709551615 2\n",
        1,
        "overlapping ids on line 3",
    ),
    (
        "sccache_lives",
        "scheduler 127.0.0.1:10600 base 0 count 0 client c1 plain s1\n\
        life 7 1\n\
        life 9 18446744073709551615\n\
        life 0 1\n",
        1,
        "overlapping ids on line 3",
    ),
    (
        "sccache_lives",
        "scheduler 127.0.0.1:10600 base 0 count 0 client c1 plain s1\n\
        life 5 1\n\
        life 9 1\n\
        life 4 9\n",
        1,
        "overlapping ids on line 4",
    ),
    (
        "sccache_lives",
        "scheduler 127.0.0.1:10600 base 0 count 0 client c1 plain s1\n\
        life 5 9\n\
        life 1 1\n\
        0 fail 0\n\
        life 6 1\n\
        0 fail\n",
        1,
        "overlapping ids on line 5",
    ),
    (
        "sccache_lives",
        "scheduler 127.0.0.1:10600 base 0 count 0 client c1 plain s1\n\
        life 5 1\n\
        life\n\
        life 5 1\n",
        1,
        "bad line 3",
    ),
];

fn prints(alloc: Global, row: &(&str, &str)) -> Result<bool, Fail> {
    let ran = called(alloc, "sccache_lives", row.0, NOTHING)?;
    Ok(ran.status == 0 && ran.out.as_slice() == row.1.as_bytes() && ran.errs.is_empty())
}

fn is_refused(alloc: Global, row: &(&str, &str, u8, &str)) -> Result<bool, Fail> {
    let ran = called(alloc, row.0, row.1, NOTHING)?;
    let told = format!(in alloc; "sccache_lives: {}\n", row.3)?;
    Ok(ran.status == row.2 && ran.out.is_empty() && ran.errs.as_slice() == told.as_bytes())
}

#[test]
fn prints_each_life(rt: HostRuntime) -> Result<(), Fail> {
    for (place, row) in ROWS.iter().enumerate() {
        assert!(rt; prints(rt.alloc(), row)?, "row {place}");
    }
    Ok(())
}

#[test]
fn prints_what_the_model_prints(rt: HostRuntime) -> Result<(), Fail> {
    for (place, row) in table::ROWS.iter().enumerate() {
        assert!(rt; prints(rt.alloc(), row)?, "row {place}");
    }
    Ok(())
}

#[test]
fn tells_the_first_fault(rt: HostRuntime) -> Result<(), Fail> {
    for (place, row) in FAULTY.iter().enumerate() {
        assert!(rt; is_refused(rt.alloc(), row)?, "row {place}");
    }
    Ok(())
}
