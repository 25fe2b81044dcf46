//! Each read and each write fails in turn, over the script of the first run.
use crate::first_run::{FIRST_RUN, FIRST_SCRIPT};
use crate::ran::{Failing, NOTHING, called};
use std::test::Fail;

/// The script is read in two calls, of which the second finds the end.
const READS: u64 = 2;

#[test]
fn tells_each_failing_read(rt: HostRuntime) -> Result<(), Fail> {
    for read in 0..5u64 {
        let script = Vec::from_slice(rt.alloc(), FIRST_SCRIPT.as_bytes())?;
        let ran = called(rt.alloc(), "farm", script, Failing { read, ..NOTHING })?;
        if read < READS {
            assert_eq!(rt; ran.status, 4, "read {read}");
            assert_eq!(rt;
                ran.errs.as_slice(),
                b"sccache-dist: read fault\n".as_slice()
            );
            assert_eq!(rt; ran.out.len(), 0);
        } else {
            assert_eq!(rt; ran.status, 0, "read {read}");
        }
    }
    Ok(())
}

#[test]
fn tells_each_failing_write(rt: HostRuntime) -> Result<(), Fail> {
    for write in 0..3u64 {
        let script = Vec::from_slice(rt.alloc(), FIRST_SCRIPT.as_bytes())?;
        let ran = called(rt.alloc(), "farm", script, Failing { write, ..NOTHING })?;
        if write == 0 {
            assert_eq!(rt; ran.status, 5, "write {write}");
            assert_eq!(rt;
                ran.errs.as_slice(),
                b"sccache-dist: write fault\n".as_slice()
            );
            assert_eq!(rt; ran.out.len(), 0);
        } else {
            assert_eq!(rt; ran.status, 0, "write {write}");
            assert_eq!(rt; ran.out.as_slice(), FIRST_RUN.as_bytes());
        }
    }
    Ok(())
}

/// Where a fault cannot be told, that is the fault.
#[test]
fn answers_5_where_errs_fails(rt: HostRuntime) -> Result<(), Fail> {
    let untold = Failing { tell: 0, ..NOTHING };
    let cases = [
        ("farm", "x", untold),
        ("frm", "x", untold),
        ("farm", FIRST_SCRIPT, Failing { read: 1, ..untold }),
        ("farm", FIRST_SCRIPT, Failing { write: 0, ..untold }),
    ];
    for (word, script, failing) in cases {
        let bytes = Vec::from_slice(rt.alloc(), script.as_bytes())?;
        let ran = called(rt.alloc(), word, bytes, failing)?;
        assert_eq!(rt; ran.status, 5);
        assert_eq!(rt; ran.out.len(), 0);
        assert_eq!(rt; ran.errs.len(), 0);
    }
    Ok(())
}

#[test]
fn judges_the_words_first(rt: HostRuntime) -> Result<(), Fail> {
    let script = Vec::from_slice(rt.alloc(), b"x")?;
    let ran = called(rt.alloc(), "farms", script, Failing { read: 0, ..NOTHING })?;
    assert_eq!(rt; ran.status, 2);
    assert_eq!(rt;
        ran.errs.as_slice(),
        b"sccache-dist: these words name no command\n".as_slice()
    );
    Ok(())
}
