//! The objects in memory, with a call that fails in mid-stream.
use dist_types::clock::{Clock, MemClock};
use dist_types::dialer::{AskFault, Dialer, MemDialer};
use dist_types::fault::Failed;
use dist_types::link::MemLink;
use dist_types::output::OutputData;
use dist_types::readers::{InputsReader, ToolchainReader};
use dist_types::sink::{MemSink, Sink, StdSink, write_all};
use dist_types::source::{MemSource, ReadError, Source, StdSource, read_up_to, read_whole};
use dist_types::text::Bytes;
use std::test::Fail;

#[test]
fn listed_calls_fail(rt: HostRuntime) -> Result<(), Fail> {
    let alloc = rt.alloc();
    let mut buf = [0u8; 2];
    let mut source = MemSource::new(b"abc".to_vec(alloc)?, vec![in alloc; 1]?);
    assert_eq!(rt; source.read(&mut buf), Ok(2));
    assert_eq!(rt; source.read(&mut buf), Err(Failed));
    assert_eq!(rt; source.read(&mut buf), Ok(1));
    assert_eq!(rt; source.read(&mut buf), Ok(0));
    let source = MemSource::new(b"abc".to_vec(alloc)?, vec![in alloc; 0, 2]?);
    let mut link = MemLink::new(source, MemSink::new(alloc, vec![in alloc; 1]?));
    assert_eq!(rt;
        read_up_to(alloc, &mut link, 9).err(),
        Some(ReadError::Failed)
    );
    assert_eq!(rt; write_all(&mut link, b"xy"), Ok(()));
    assert_eq!(rt; link.write(b"z"), Err(Failed));
    assert_eq!(rt; link.sink().bytes(), b"xy".as_slice());
    let mut inputs = InputsReader(link);
    assert_eq!(rt;
        OutputData::try_from_reader(alloc, &mut inputs).err(),
        Some(ReadError::Failed)
    );
    let mut rest = ToolchainReader(inputs);
    assert_eq!(rt; read_up_to(alloc, &mut rest, 9)?.len(), 0);
    Ok(())
}

#[test]
fn readers_and_writers_of_std(rt: HostRuntime) -> Result<(), Fail> {
    let alloc = rt.alloc();
    let mut input = StdSource::new(b"abcdef".as_slice());
    assert_eq!(rt;
        read_up_to(alloc, &mut input, 4)?.as_slice(),
        b"abcd".as_slice()
    );
    assert_eq!(rt; OutputData::try_from_reader(alloc, &mut input)?.1, 2);
    let mut out = StdSink::new(Vec::new(alloc));
    assert_eq!(rt; write_all(&mut out, b"abc"), Ok(()));
    Ok(())
}

#[test]
fn dialer_and_clock_in_memory(rt: HostRuntime) -> Result<(), Fail> {
    let alloc = rt.alloc();
    let replies = vec![in alloc;
        Bytes::from_slice(alloc, b"one")?,
        Bytes::from_slice(alloc, b"two")?,
    ]?;
    let mut dialer = MemDialer::new(alloc, replies, vec![in alloc; 1]?);
    assert_eq!(rt; dialer.ask("a", 1, b"x")?.as_slice(), b"one".as_slice());
    assert_eq!(rt; dialer.ask("a", 1, b"x").err(), Some(AskFault::Failed));
    assert_eq!(rt; dialer.ask("b", 2, b"y")?.as_slice(), b"two".as_slice());
    assert_eq!(rt; dialer.ask("b", 2, b"y").err(), Some(AskFault::Failed));
    let rows = dialer.asked();
    assert_eq!(rt; rows.len(), 4);
    assert_eq!(rt; (rows[2].host.get(), rows[2].port), ("b", 2));
    assert_eq!(rt; rows[2].request.get(), b"y".as_slice());
    assert!(rt; rows[1].answer.is_err() && rows[2].answer.is_ok());
    let mut clock = MemClock::new(vec![in alloc; 5, 3]?);
    assert_eq!(rt; (clock.now(), clock.now(), clock.now()), (5, 3, 3));
    assert_eq!(rt; MemClock::new(Vec::new(alloc)).now(), 0);
    Ok(())
}

#[test]
fn whole_contents_end_at_the_limit(rt: HostRuntime) -> Result<(), Fail> {
    let alloc = rt.alloc();
    let mut source = MemSource::new(b"abcde".to_vec(alloc)?, Vec::new(alloc));
    assert_eq!(rt;
        read_whole(alloc, &mut source, 5)?.as_slice(),
        b"abcde".as_slice()
    );
    let mut source = MemSource::new(b"abcdef".to_vec(alloc)?, Vec::new(alloc));
    assert_eq!(rt;
        read_whole(alloc, &mut source, 5).err(),
        Some(ReadError::TooLong)
    );
    Ok(())
}
