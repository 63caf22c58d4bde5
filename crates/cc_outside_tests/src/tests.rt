//! What sources, sinks and clocks give and keep, by concrete values.

ghost use Rattle.std.specs.Prelude.{◌<◌, ◌^◌};

use cc_names::memory::Or;
use cc_outside::{
    Clock, MemorySource, ReadFault, Sink, Source, StdSink, StdSource, SystemClock, Unread,
    WriteFault, read_whole, write_whole,
};
use std::alloc::Global;
use std::cell::Cell;
use std::io::{self, Cursor, Read, Write};
use std::test::Fail;
use std::time::Duration;

// What reading a source of so many bytes, whose call of this number fails, answers: the length or why not.
fn length_read(alloc: Global, length: usize, fail: u64, limit: usize) -> Result<usize, Or<Unread>>
    requires { limit < 2 ^ 62 }
{
    let bytes = vec![in alloc; 7u8; length]?;
    let mut source = MemorySource::new(alloc, bytes.as_slice(), &[fail])?;
    let text = read_whole(alloc, &mut source, limit)?;
    Ok(text.as_bytes().len())
}

#[test]
fn a_source_is_read_to_its_end_or_past_the_limit(rt: HostRuntime) {
    for (length, fail, limit, answer) in [
        (0, 9, 0, Ok(0)),
        (200_000, 9, 200_000, Ok(200_000)),
        (200_001, 9, 200_000, Err(Or::Is(Unread::TooLong))),
        (1, 9, 0, Err(Or::Is(Unread::TooLong))),
        (200_000, 1, 200_000, Err(Or::Is(Unread::Fault))),
        (200_000, 4, 200_000, Err(Or::Is(Unread::Fault))),
    ] {
        assert_eq!(rt; length_read(rt.alloc(), length, fail, limit), answer);
    }
}

// More than the pieces that are asked for at once.
#[test]
fn a_reader_of_the_library_is_read_to_its_end(rt: HostRuntime) -> Result<(), Fail> {
    let mut bytes = Vec::new(rt.alloc());
    for place in 0..200_000u32 {
        bytes.push((place % 251) as u8)?;
    }
    let mut source = StdSource::new(Cursor::new(bytes.as_slice()));
    let text = read_whole(rt.alloc(), &mut source, 200_000)?;
    assert!(rt; text.as_bytes() == bytes.as_slice());
    Ok(())
}

// Gives a line once, and then fails.
#[derive(Drop)]
struct Breaking {
    given: bool,
}

impl Read for Breaking {
    fn read(&mut self, into: &mut [u8]) -> io::Result<usize> {
        if self.given {
            return Err(io::Error::from(io::ErrorKind::Other));
        }
        self.given = true;
        let mut line = b"phase\n".as_slice();
        line.read(into)
    }
}

#[test]
fn a_reader_that_fails_is_a_fault(rt: HostRuntime) {
    let mut source = StdSource::new(Breaking { given: false });
    let mut piece = [0; 8];
    assert_eq!(rt; source.read(&mut piece), Ok(6));
    assert_eq!(rt; &piece[..6], b"phase\n".as_slice());
    assert_eq!(rt; source.read(&mut piece), Err(ReadFault));
}

// Takes one byte at a call.
#[derive(Drop)]
struct Slow {
    bytes: Vec<u8>,
}

impl Write for Slow {
    fn write(&mut self, piece: &[u8]) -> io::Result<usize> {
        let count = piece.len().min(1);
        self.bytes.extend_from_slice(&piece[..count])?;
        Ok(count)
    }

    fn flush(&mut self) -> io::Result<()> {
        Ok(())
    }
}

#[test]
fn a_slow_writer_gets_the_whole_text(rt: HostRuntime) {
    let mut slow = Slow {
        bytes: Vec::new(rt.alloc()),
    };
    let mut sink = StdSink::new(&mut slow);
    assert_eq!(rt; write_whole(&mut sink, b"phase 1\n"), Ok(()));
    drop(sink);
    assert_eq!(rt; slow.bytes.as_slice(), b"phase 1\n".as_slice());
}

// Takes nothing and says why.
#[derive(Drop)]
struct Broken;

impl Write for Broken {
    fn write(&mut self, _piece: &[u8]) -> io::Result<usize> {
        Err(io::Error::from(io::ErrorKind::Other))
    }

    fn flush(&mut self) -> io::Result<()> {
        Ok(())
    }
}

// The other one is a writer without room, which takes nothing and says so without an error.
#[test]
fn a_writer_that_takes_nothing_is_a_fault(rt: HostRuntime) {
    let mut sink = StdSink::new(Broken);
    assert_eq!(rt; write_whole(&mut sink, b"abc"), Err(WriteFault));
    let mut room = [0u8; 2];
    let mut sink = StdSink::new(room.as_mut_slice());
    assert_eq!(rt; write_whole(&mut sink, b"abc"), Err(WriteFault));
}

// A clock of the system that fails, tells 5, fails again, and tells 3 from then on.
struct Fake {
    readings: Cell<u8>,
}

impl Drop for Fake {
    fn drop(self) {
        let Fake { readings: _ } = self;
    }
}

impl std::rt::Clock for Fake {
    fn monotonic(&self) -> io::Result<Duration> {
        self.since_1970()
    }

    fn since_1970(&self) -> io::Result<Duration> {
        let reading = self.readings.get();
        self.readings.set(reading.saturating_add(1));
        match reading {
            1 => Ok(Duration::from_secs(5)),
            3.. => Ok(Duration::from_secs(3)),
            _ => Err(io::Error::from(io::ErrorKind::Other)),
        }
    }
}

#[test]
fn the_clock_of_the_system_tells_its_last_answer_where_it_fails(rt: HostRuntime) {
    let mut clock = SystemClock::new(Fake {
        readings: Cell::new(0),
    });
    for moment in [0, 5, 5, 3] {
        assert_eq!(rt; clock.now(), moment);
    }
}
