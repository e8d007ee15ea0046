//! Each call once, and one failing read and one failing write in mid-stream.

use std::io;
use std::io::Write;
use std::test::Fail;
use un_io::*;

/// A writer that takes nothing.
#[derive(Drop)]
struct Stuck;

impl Write for Stuck {
    fn write(&mut self, _bytes: &[u8]) -> io::Result<usize> {
        Ok(0)
    }

    fn flush(&mut self) -> io::Result<()> {
        Ok(())
    }
}

#[test]
fn a_failing_read_takes_no_byte(rt: HostRuntime) -> Result<(), Fail> {
    let bytes = Vec::from_slice(rt.alloc(), b"abcde")?;
    let failing = Vec::from_slice(rt.alloc(), &[1])?;
    let mut source = MemSource::make(bytes, 2, failing);
    let first = read_whole(rt.alloc(), &mut source, 5);
    assert_eq!(rt; first.err(), Some(ReadError::ReadFault));
    let rest = read_whole(rt.alloc(), &mut source, 3).unwrap_or(Vec::new(rt.alloc()));
    assert_eq!(rt; rest.as_slice(), b"cde".as_slice());
    Ok(())
}

#[test]
fn a_failing_write_adds_nothing(rt: HostRuntime) -> Result<(), Fail> {
    let failing = Vec::from_slice(rt.alloc(), &[1])?;
    let mut sink = MemSink::make(rt.alloc(), 5, 2, failing)?;
    let first = write_whole(&mut sink, b"abcde");
    assert_eq!(rt; first, Err(WriteFault));
    assert_eq!(rt; sink.held(), b"ab".as_slice());
    let second = write_whole(&mut sink, b"cdef");
    assert_eq!(rt; second, Err(WriteFault));
    assert_eq!(rt; sink.held(), b"abcde".as_slice());
    Ok(())
}

#[test]
fn a_source_that_never_fails_is_read_up_to_the_limit(rt: HostRuntime) -> Result<(), Fail> {
    let mut source = SureSource::make(Vec::from_slice(rt.alloc(), b"hello")?);
    let long = read_whole(rt.alloc(), &mut source, 3);
    assert_eq!(rt; long.err(), Some(ReadError::TooLarge));
    let rest = read_whole(rt.alloc(), &mut source, 3).unwrap_or(Vec::new(rt.alloc()));
    assert_eq!(rt; rest.as_slice(), b"o".as_slice());
    let mut sink = SureSink::make();
    assert_eq!(rt; write_whole(&mut sink, b"hello"), Ok(()));
    assert_eq!(rt; sink.given(), 5);
    Ok(())
}

#[test]
fn readers_and_writers_of_std_are_used(rt: HostRuntime) -> Result<(), Fail> {
    let text: &[u8] = b"hello";
    let mut source = StdSource::make(text);
    let whole = read_whole(rt.alloc(), &mut source, 5).unwrap_or(Vec::new(rt.alloc()));
    assert_eq!(rt; whole.as_slice(), b"hello".as_slice());
    let mut sink = StdSink::make(Vec::new(rt.alloc()));
    assert_eq!(rt; write_whole(&mut sink, b"hello"), Ok(()));
    let mut stuck = StdSink::make(Stuck);
    assert_eq!(rt; write_whole(&mut stuck, b"hello"), Err(WriteFault));
    Ok(())
}
