use clone_outside::{Refusal, Sink, Source};
use clone_real::{SINK_ROOM, StdSink, StdSource};
use std::io;
use std::io::{ErrorKind, Read, Write};
use std::test::Fail;

// Gives a byte, fails, and gives another; takes a byte a write, fails, and then takes nothing.
#[derive(Drop)]
struct Halting {
    calls: u32,
}

impl Read for Halting {
    fn read(&mut self, buf: &mut [u8]) -> io::Result<usize> {
        self.calls = self.calls.saturating_add(1);
        if self.calls == 2 {
            return Err(io::Error::from(ErrorKind::BrokenPipe));
        }
        if self.calls > 3 || buf.is_empty() {
            return Ok(0);
        }
        buf[0] = b'x';
        Ok(1)
    }
}

impl Write for Halting {
    fn write(&mut self, buf: &[u8]) -> io::Result<usize> {
        self.calls = self.calls.saturating_add(1);
        match self.calls {
            1 => Ok(buf.len().min(1)),
            2 => Err(io::Error::from(ErrorKind::BrokenPipe)),
            _ => Ok(0),
        }
    }

    fn flush(&mut self) -> io::Result<()> {
        Ok(())
    }
}

// Calls of a source and a sink in functions of their own, since each of their clauses stays with
// whoever calls them.
fn read(source: &mut StdSource<Halting>) -> Result<usize, Refusal> {
    source.read(&mut [0; 2])
}

fn write(sink: &mut StdSink<Halting>, bytes: &[u8]) -> Result<usize, Refusal> {
    sink.write(bytes)
}

fn flush(sink: &mut StdSink<Halting>) -> Result<(), Refusal> {
    sink.flush()
}

#[test]
fn a_failed_read_is_no_end(rt: HostRuntime) -> Result<(), Fail> {
    let mut source = StdSource::new(Halting { calls: 0 });
    assert_eq!(rt; read(&mut source), Ok(1));
    assert_eq!(rt; read(&mut source), Err(Refusal::Fault));
    assert_eq!(rt; source.faults(), 1);
    assert_eq!(rt; read(&mut source), Ok(1));
    assert_eq!(rt; read(&mut source), Ok(0));
    assert_eq!(rt; source.faults(), 1);
    Ok(())
}

#[test]
fn bytes_wait_until_they_are_flushed(rt: HostRuntime) -> Result<(), Fail> {
    let mut sink = StdSink::new(rt.alloc(), Halting { calls: 0 })?;
    assert_eq!(rt; write(&mut sink, b"ab"), Ok(2));
    assert_eq!(rt; write(&mut sink, b""), Ok(0));
    assert_eq!(rt; sink.faults(), 0);
    assert_eq!(rt; flush(&mut sink), Err(Refusal::Fault));
    assert_eq!(rt; flush(&mut sink), Err(Refusal::Fault));
    assert_eq!(rt; sink.faults(), 2);
    Ok(())
}

// How many of the bytes a sink over a list takes.
fn put(sink: &mut StdSink<Vec<u8>>, bytes: &[u8]) -> Result<usize, Refusal> {
    sink.write(bytes)
}

#[test]
fn a_full_buffer_goes_out(rt: HostRuntime) -> Result<(), Fail> {
    let mut sink = StdSink::new(rt.alloc(), Vec::new(rt.alloc()))?;
    assert_eq!(rt; put(&mut sink, b"ab"), Ok(2));
    assert_eq!(rt; put(&mut sink, &[7; SINK_ROOM]), Ok(SINK_ROOM));
    assert_eq!(rt; put(&mut sink, b"c"), Ok(1));
    sink.flush()?;
    assert_eq!(rt; sink.faults(), 0);
    Ok(())
}
