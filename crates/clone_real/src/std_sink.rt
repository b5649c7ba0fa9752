//! A sink over a stream of the system, with a buffer. The bytes that wait are those of the buffer
//! from `start` on, which is within it.
ghost use Rattle.std.specs.Prelude.{◌≡◌, ◌<◌, ◌≤◌, [], length, take, IfOk, OnOk, OnErr, None};
ghost use Rattle.std.specs.Io.{WritesAtMost};
ghost use Rattle.std.specs.Io.KnownBytes.{Appends, Keeps, WriteAppends};
ghost use Rattle.clone_outside.specs.Bytes.{Takes};
ghost use Rattle.clone_outside.specs.Causes.{HasCause};
ghost use Rattle.clone_real.specs.Streams.{taken_by};

use clone_outside::{Refusal, Sink};
use std::alloc::{AllocError, Global};
use std::io::Write;
use std::marker::Model;

/// How many bytes a sink keeps back at most.
pub const SINK_ROOM: usize = 32_768;

/// A sink over a stream of the system. It keeps what it took in one buffer, which goes out when it
/// is full and by `flush`: its owner flushes it at the end, and before it waits. It counts its
/// faults, and no byte that it took is dropped.
///
/// What it took is not known of it as a sink, since a stream may begin to say what it holds. Where
/// std says what a stream holds, so do the clauses of `write` and `flush`.
#[derive(Drop)]
pub struct StdSink<W: Write> {
    stream: W,
    buffer: Vec<u8>,
    start: usize,
    faults: u64,
}

impl<W: Write> Model for StdSink<W> {
    ghost use Rattle.std.specs.Prelude.{drop, ◌≤◌, length};
    ghost use Rattle.clone_real.specs.Streams.{SinkModel};

    ghost Value = { SinkModel };

    ghost view = { λ s. record {
      out = W.contents s.stream;
      waiting = drop s.start s.buffer.items;
      faults = s.faults;
    } };

    ghost invariant = { λ s. s.start ≤ length s.buffer.items };
}

impl<W: Write> StdSink<W> {
    /// A sink without faults so far, and with nothing that waits. The error is that
    /// there is no memory.
    pub fn new(alloc: Global, stream: W) -> Result<StdSink<W>, AllocError>
    where
        W: Drop,
        ensures calm { IfOk result (λ s. s.faults ≡ 0) }
        ensures empty { IfOk result (λ s. s.waiting ≡ []) }
    {
        let buffer = Vec::with_capacity(alloc, SINK_ROOM)?;
        Ok(StdSink {
            stream,
            buffer,
            start: 0,
            faults: 0,
        })
    }

    /// Lets all that waits go out. After a fault, which is counted, what didn't go out waits on.
    #[tactic(auto, using(crate::proofs::Waiting::gone_out))]
    pub fn flush(&mut self) -> Result<(), Refusal>
        ensures out { OnOk result (self.new.waiting ≡ []) }
        ensures told { Keeps (taken_by self.old) (taken_by self.new) }
        ensures cause { HasCause self.old.faults self.new.faults result }
        ensures calm { OnOk result (self.new.faults ≡ self.old.faults) }
    {
        let done = put_out(&mut self.stream, &self.buffer.as_slice()[self.start..]);
        self.start += done;
        if self.start < self.buffer.len() {
            self.faults = self.faults.saturating_add(1);
            return Err(Refusal::Fault);
        }
        self.buffer.clear();
        self.start = 0;
        Ok(())
    }

    // Flushes the buffer where it hasn't room for so many bytes.
    fn make_room(&mut self, count: usize) -> Result<(), Refusal>
        ensures told { Keeps (taken_by self.old) (taken_by self.new) }
        ensures cause { HasCause self.old.faults self.new.faults result }
        ensures calm { OnOk result (self.new.faults ≡ self.old.faults) }
    {
        if count > SINK_ROOM.saturating_sub(self.buffer.len()) {
            self.flush()?;
        }
        Ok(())
    }

    // Takes the bytes into the buffer. The error is that there is no memory, and none was taken.
    fn keep(&mut self, bytes: &[u8]) -> Result<(), AllocError>
        ensures told { OnOk result (Appends (taken_by self.old) (taken_by self.new) bytes.now) }
        ensures same { OnErr result (self.new ≡ self.old) }
        ensures calm { self.new.faults ≡ self.old.faults }
    {
        self.buffer.extend_from_slice(bytes)
    }
}

// Writes bytes from the front, until all are out or a write fails or takes none. Says how many are
// out.
#[tactic(auto, using(crate::proofs::Waiting::one_more, crate::proofs::Waiting::then_kept))]
fn put_out<W: Write>(stream: &mut W, bytes: &[u8]) -> usize
    ensures count { result ≤ length bytes.now }
    ensures bytes { Appends (W.contents stream.old) (W.contents stream.new)
        (take result bytes.now) }
{
    let mut done = 0;
    while done < bytes.len() {
        match stream.write(&bytes[done..]) {
            Ok(0) | Err(_) => break,
            Ok(count) => done += count,
        }
    }
    done
}

impl<W: Write> Sink for StdSink<W> {
    ghost use Rattle.std.specs.Prelude.{None};

    ghost taken = { λ _. None };

    ghost failures = { λ s. s.faults };

    fn faults(&self) -> u64 {
        self.faults
    }

    /// Takes as many bytes as the buffer has room for, and flushes it first where it hasn't room
    /// for all.
    #[tactic(auto, using(crate::proofs::Waiting::kept_then))]
    fn write(&mut self, from: &[u8]) -> Result<usize, Refusal>
        ensures bound { WritesAtMost result from.now }
        ensures progress { IfOk result (λ n. 0 < length from.now → 0 < n) }
        ensures bytes { Takes None None result from.now }
        ensures cause { HasCause self.old.faults self.new.faults result }

        ensures told { WriteAppends (taken_by self.old) (taken_by self.new) result from.now }
        ensures calm { OnOk result (self.new.faults ≡ self.old.faults) }
    {
        self.make_room(from.len())?;
        let count = from.len().min(SINK_ROOM);
        self.keep(&from[..count])?;
        Ok(count)
    }
}
