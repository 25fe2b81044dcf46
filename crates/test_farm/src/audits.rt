//! Each read and each write fails in turn, over the audit of the first run; and what does not hold.
use crate::first_run::FIRST_RUN;
use crate::ran::{Failing, NOTHING, called};
use std::test::Fail;

/// The run is read in two calls, of which the second finds the end.
const READS: u64 = 2;

#[test]
fn tells_each_failing_read_of_an_audit(rt: HostRuntime) -> Result<(), Fail> {
    for read in 0..5u64 {
        let run = Vec::from_slice(rt.alloc(), FIRST_RUN.as_bytes())?;
        let ran = called(rt.alloc(), "audit", run, Failing { read, ..NOTHING })?;
        if read < READS {
            assert_eq!(rt; ran.status, 4, "read {read}");
            assert_eq!(rt;
                ran.errs.as_slice(),
                b"sccache-dist: read fault\n".as_slice()
            );
            assert_eq!(rt; ran.out.len(), 0);
        } else {
            assert_eq!(rt; ran.status, 0, "read {read}");
            assert_eq!(rt; ran.errs.len(), 0);
        }
    }
    Ok(())
}

#[test]
fn tells_each_failing_write_of_an_audit(rt: HostRuntime) -> Result<(), Fail> {
    for write in 0..3u64 {
        let run = Vec::from_slice(rt.alloc(), FIRST_RUN.as_bytes())?;
        let ran = called(rt.alloc(), "audit", run, Failing { write, ..NOTHING })?;
        if write == 0 {
            assert_eq!(rt; ran.status, 5, "write {write}");
            assert_eq!(rt;
                ran.errs.as_slice(),
                b"sccache-dist: write fault\n".as_slice()
            );
            assert_eq!(rt; ran.out.len(), 0);
        } else {
            assert_eq!(rt; ran.status, 0, "write {write}");
            assert_eq!(rt; ran.out.as_slice(), b"audit holds\n".as_slice());
        }
    }
    Ok(())
}

/// Where a refusal cannot be told, that is the fault; nothing is written of a run that does not hold.
#[test]
fn refuses_what_does_not_hold(rt: HostRuntime) -> Result<(), Fail> {
    let bytes = Vec::from_slice(rt.alloc(), b"run 1 entries 0\n")?;
    let refused = called(rt.alloc(), "audit", bytes, NOTHING)?;
    assert_eq!(rt; refused.status, 8);
    assert_eq!(rt; refused.out.len(), 0);
    assert_eq!(rt;
        refused.errs.as_slice(),
        b"sccache-dist: audit refused line 2: text\n".as_slice()
    );
    let bytes = Vec::from_slice(rt.alloc(), b"run 1 entries 0\n")?;
    let untold = called(rt.alloc(), "audit", bytes, Failing { tell: 0, ..NOTHING })?;
    assert_eq!(rt; untold.status, 5);
    assert_eq!(rt; untold.out.len(), 0);
    assert_eq!(rt; untold.errs.len(), 0);
    Ok(())
}
