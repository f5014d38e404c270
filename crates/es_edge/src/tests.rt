use super::*;
use std::io::{self, Cursor};
use std::test::Fail;

/// The bytes of a source in memory, read with a buffer of three.
#[test]
fn reads_in_pieces(rt: HostRuntime) -> Result<(), Fail> {
    let alloc = rt.alloc();
    let bytes = Bytes::from_slice(alloc, b"abcde")?;
    let failing = Numbers::from_slice(alloc, &[2])?;
    let mut source = MemSource::new(bytes, 4, failing);
    let mut buf = [0u8; 3];
    assert_eq!(rt; source.read(&mut buf), Got::Bytes(3));
    assert_eq!(rt; buf, *b"abc");
    assert_eq!(rt; source.read(&mut buf), Got::Failed);
    assert_eq!(rt; source.read(&mut buf), Got::Bytes(2));
    assert_eq!(rt; buf, *b"dec");
    assert_eq!(rt; source.read(&mut buf), Got::End);
    assert_eq!(rt; source.faults, 1);
    assert_eq!(rt; source.ends, 1);
    Ok(())
}

#[test]
fn writes_until_a_fault(rt: HostRuntime) -> Result<(), Fail> {
    let alloc = rt.alloc();
    let failing = Numbers::from_slice(alloc, &[3])?;
    let mut sink = MemSink::new(Bytes::empty(alloc), 2, 6, failing)?;
    assert_eq!(rt; put(&mut sink, b"abc"), Sent::Ok);
    assert_eq!(rt; sink.taken.as_slice(), b"abc".as_slice());
    assert_eq!(rt; put(&mut sink, b"d"), Sent::WriteFault);
    assert_eq!(rt; put(&mut sink, b"defg"), Sent::WriteFault);
    assert_eq!(rt; sink.taken.as_slice(), b"abcdef".as_slice());
    assert_eq!(rt; sink.faults, 2);
    Ok(())
}

/// Gives and takes one byte a call, so many in all, and fails then.
#[derive(Drop)]
struct OneByOne {
    room: u8,
}

impl io::Read for OneByOne {
    fn read(&mut self, buf: &mut [u8]) -> io::Result<usize> {
        let Some(first) = buf.first_mut() else {
            return Ok(0);
        };
        if self.room == 0 {
            return Err(io::Error::from(io::ErrorKind::BrokenPipe));
        }
        *first = self.room;
        self.room -= 1;
        Ok(1)
    }
}

impl io::Write for OneByOne {
    fn write(&mut self, buf: &[u8]) -> io::Result<usize> {
        if buf.is_empty() {
            return Ok(0);
        }
        if self.room == 0 {
            return Err(io::Error::from(io::ErrorKind::BrokenPipe));
        }
        self.room -= 1;
        Ok(1)
    }

    fn flush(&mut self) -> io::Result<()> {
        Ok(())
    }
}

#[test]
fn adapts_readers(rt: HostRuntime) -> Result<(), Fail> {
    let mut buf = [0u8; 4];
    let mut source = StdSource::new(Cursor::new(b"ab".as_slice()));
    assert_eq!(rt; source.read(&mut buf), Got::Bytes(2));
    assert_eq!(rt; source.read(&mut buf), Got::End);
    assert_eq!(rt; source.ends, 1);
    let mut source = StdSource::new(OneByOne { room: 1 });
    assert_eq!(rt; source.read(&mut buf), Got::Bytes(1));
    assert_eq!(rt; source.read(&mut buf), Got::Failed);
    assert_eq!(rt; source.faults, 1);
    Ok(())
}

#[test]
fn adapts_writers(rt: HostRuntime) -> Result<(), Fail> {
    let mut sink = StdSink::new(OneByOne { room: 3 });
    assert_eq!(rt; put(&mut sink, b"ab"), Sent::Ok);
    assert_eq!(rt; put(&mut sink, b"cd"), Sent::WriteFault);
    assert_eq!(rt; sink.faults, 1);
    Ok(())
}

#[test]
fn draws_from_lists_and_readers(rt: HostRuntime) -> Result<(), Fail> {
    let members = [Draw::Bytes([7; 16]), Draw::NotDrawn, Draw::Bytes([9; 16])];
    let mut listed = ListedChance::new(Draws::from_slice(rt.alloc(), &members)?);
    assert_eq!(rt; listed.draw(), Draw::Bytes([7; 16]));
    assert_eq!(rt; listed.draw(), Draw::Failed);
    assert_eq!(rt; listed.draw(), Draw::Bytes([9; 16]));
    assert_eq!(rt; listed.draw(), Draw::Failed);
    assert_eq!(rt; listed.calls, 4);
    assert_eq!(rt; listed.faults, 2);
    let mut read = ReaderChance::new(OneByOne { room: 31 });
    let first = [
        31, 30, 29, 28, 27, 26, 25, 24, 23, 22, 21, 20, 19, 18, 17, 16,
    ];
    assert_eq!(rt; read.draw(), Draw::Bytes(first));
    assert_eq!(rt; read.draw(), Draw::Failed);
    assert_eq!(rt; read.faults, 1);
    let mut device = random_device(&rt)?;
    let drawn = device.draw();
    assert_ne!(rt; drawn, Draw::Failed);
    assert_ne!(rt; device.draw(), drawn);
    Ok(())
}

/// A moment of the system lies after 2020 and before 2100.
#[test]
fn tells_the_time(rt: HostRuntime) -> Result<(), Fail> {
    let clock = SystemClock::new(rt.clone()?);
    let now = clock.now();
    assert!(rt; 1577836800000 < now && now < 4102444800000);
    assert_eq!(rt; FixedClock { moment: 5 }.now(), 5);
    Ok(())
}
