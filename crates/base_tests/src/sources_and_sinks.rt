//! Sources, sinks, names and frames at worked sizes.
use perp_base::{
    Failed, Frame, MemSink, MemSource, Name, ReadError, Sink, Source, StdSink, StdSource,
    read_input, write_whole,
};
use std::io;
use std::io::{Read, Write};
use std::test::Fail;

#[test]
fn a_source_in_memory_gives_pieces_and_fails_at_its_numbers(rt: HostRuntime) -> Result<(), Fail> {
    let alloc = rt.alloc();
    let mut source = MemSource::new(alloc, b"abcdef", 4, &[2])?;
    let mut buf = [0u8; 5];
    let wants = [Ok(4), Err(Failed), Ok(2), Ok(0)];
    for want in wants {
        assert_eq!(rt; source.read(&mut buf), want);
    }
    assert_eq!(rt; buf.as_slice(), b"efcd\0".as_slice());
    Ok(())
}

#[test]
fn an_input_is_read_whole_or_refused(rt: HostRuntime) -> Result<(), Fail> {
    let alloc = rt.alloc();
    let rows: [(usize, u64, Result<usize, ReadError>); 5] = [
        (6, 9, Ok(6)),
        (7, 9, Ok(6)),
        (5, 9, Err(ReadError::TooLong)),
        (6, 2, Err(ReadError::Fault)),
        (0, 9, Err(ReadError::TooLong)),
    ];
    for (limit, failing, want) in rows {
        let mut source = MemSource::new(alloc, b"abcdef", 4, &[failing])?;
        let got = read_input(alloc, &mut source, limit).map(|bytes| bytes.len());
        assert_eq!(rt; got, want, "at {limit}");
    }
    Ok(())
}

#[test]
fn a_sink_in_memory_takes_pieces_and_fails_at_its_numbers(rt: HostRuntime) -> Result<(), Fail> {
    let alloc = rt.alloc();
    let rows: [(usize, u64, Result<(), Failed>, usize); 4] = [
        (6, 9, Ok(()), 6),
        (6, 2, Err(Failed), 4),
        (5, 9, Err(Failed), 5),
        (0, 9, Err(Failed), 0),
    ];
    for (room, failing, want, len) in rows {
        let mut sink = MemSink::new(alloc, room, 4, &[failing])?;
        assert_eq!(rt; write_whole(&mut sink, b"abcdef"), want, "at {room}");
        assert_eq!(rt; sink.written().len(), len, "at {room}");
    }
    Ok(())
}

/// How many bytes there are, how many of them a call moves, and how many calls move them.
const CALLS: [(usize, usize, u64); 5] = [(0, 4, 0), (4, 4, 1), (6, 4, 2), (6, 1, 6), (6, 9, 1)];

/// An input is read by one call for each piece of it and one that finds its end, and a text is written by one call for
/// each piece: the call after those is the first that fails.
#[test]
fn each_piece_takes_one_call(rt: HostRuntime) -> Result<(), Fail> {
    let alloc = rt.alloc();
    for (len, most, calls) in CALLS {
        let bytes = &b"abcdef"[..len];
        let mut source = MemSource::new(alloc, bytes, most, &[calls + 2])?;
        let read = read_input(alloc, &mut source, 6).map(|bytes| bytes.len());
        assert_eq!(rt; read, Ok(len), "reading {len} by {most}");
        assert_eq!(rt;
            source.read(&mut [0u8; 1]),
            Err(Failed),
            "reading {len} by {most}"
        );
        let mut sink = MemSink::new(alloc, 9, most, &[calls + 1])?;
        assert_eq!(rt;
            write_whole(&mut sink, bytes),
            Ok(()),
            "writing {len} by {most}"
        );
        assert_eq!(rt; sink.write(b"g"), Err(Failed), "writing {len} by {most}");
    }
    Ok(())
}

/// A source that gives one byte a call is asked `limit` + 1 times, and no more, whether its input has as many bytes as
/// the limit or more: the call after those is the first that fails.
#[test]
fn no_input_takes_more_calls_than_one_past_the_limit(rt: HostRuntime) -> Result<(), Fail> {
    let alloc = rt.alloc();
    let rows: [(usize, u64, usize, Result<usize, ReadError>); 5] = [
        (0, 1, 0, Ok(0)),
        (0, 1, 1, Err(ReadError::TooLong)),
        (3, 4, 3, Ok(3)),
        (3, 4, 4, Err(ReadError::TooLong)),
        (3, 4, 6, Err(ReadError::TooLong)),
    ];
    for (limit, calls, len, want) in rows {
        let mut source = MemSource::new(alloc, &b"abcdef"[..len], 1, &[calls + 1])?;
        let read = read_input(alloc, &mut source, limit).map(|bytes| bytes.len());
        assert_eq!(rt; read, want, "{len} bytes at {limit}");
        assert_eq!(rt;
            source.read(&mut [0u8; 1]),
            Err(Failed),
            "{len} bytes at {limit}"
        );
    }
    Ok(())
}

#[derive(Drop)]
struct Broken;

impl Read for Broken {
    fn read(&mut self, _buf: &mut [u8]) -> io::Result<usize> {
        Err(io::Error::from(io::ErrorKind::Other))
    }
}

/// A writer that takes nothing, and one that cannot flush.
#[derive(Drop)]
struct Stuck {
    takes: usize,
}

impl Write for Stuck {
    fn write(&mut self, buf: &[u8]) -> io::Result<usize> {
        Ok(self.takes.min(buf.len()))
    }

    fn flush(&mut self) -> io::Result<()> {
        Err(io::Error::from(io::ErrorKind::Other))
    }
}

#[test]
fn a_reader_of_std_is_a_source(rt: HostRuntime) -> Result<(), Fail> {
    let alloc = rt.alloc();
    let text: &[u8] = b"abcdef";
    let mut source = StdSource::new(text);
    let bytes = read_input(alloc, &mut source, 6).or(Err("refused"))?;
    assert_eq!(rt; bytes.as_slice(), text);
    let mut broken = StdSource::new(Broken);
    let refused = read_input(alloc, &mut broken, 6).map(|bytes| bytes.len());
    assert_eq!(rt; refused, Err(ReadError::Fault));
    Ok(())
}

#[test]
fn a_writer_of_std_is_a_sink(rt: HostRuntime) -> Result<(), Fail> {
    let mut bytes: Vec<u8> = Vec::new(rt.alloc());
    let mut sink = StdSink::new(&mut bytes);
    assert_eq!(rt; write_whole(&mut sink, b"abcdef"), Ok(()));
    assert_eq!(rt; bytes.as_slice(), b"abcdef".as_slice());
    for takes in [0, 3] {
        let mut stuck = StdSink::new(Stuck { takes });
        assert_eq!(rt;
            write_whole(&mut stuck, b"abcdef"),
            Err(Failed),
            "at {takes}"
        );
    }
    Ok(())
}

fn crosses_threads<T: Send + Sync>(_value: &T) {}

#[test]
fn names_and_frames_are_made_and_shared(rt: HostRuntime) -> Result<(), Fail> {
    let name = Name::of(rt.alloc(), b"SB")?;
    assert_eq!(rt; name.bytes(), b"SB".as_slice());
    let mut frame = Frame::new();
    frame.add(7);
    frame.add(9);
    assert_eq!(rt; (frame.len(), frame.at(1)), (2, 9));
    let mut other = Frame::filled(2, 7);
    assert!(rt; !frame.is(&other));
    other.set(1, 9);
    assert!(rt; frame.is(&other));
    crosses_threads(&name);
    crosses_threads(&frame);
    Ok(())
}
