ghost use Rattle.std.specs.Prelude.{◌≡◌, ◌<◌, length, IfOk, OnOk, OnErr, None};
ghost use Rattle.std.specs.Io.{ReadsAtMost};
ghost use Rattle.std.specs.Io.KnownBytes.{ReadConsumes};
ghost use Rattle.clone_outside.specs.Bytes.{Gives, IsSpent};
ghost use Rattle.clone_outside.specs.Causes.{HasCause, raised};

use clone_outside::{Refusal, Source};
use std::io::Read;
use std::marker::Model;

/// A source over a stream of the system. It counts its faults. What is left is not known of it as a
/// source, since a stream may begin to say what it has. Where std says what a stream has left, so
/// does the clause of `read`.
#[derive(Drop)]
pub struct StdSource<R: Read> {
    stream: R,
    faults: u64,
}

impl<R: Read> Model for StdSource<R> {
    ghost use Rattle.clone_real.specs.Streams.{SourceModel};

    ghost Value = { SourceModel };

    ghost view = { λ s. record { left = R.remaining s.stream; faults = s.faults } };
}

impl<R: Read> StdSource<R> {
    /// A source without faults so far.
    pub fn new(stream: R) -> StdSource<R>
        ensures { result.faults ≡ 0 }
    {
        StdSource { stream, faults: 0 }
    }
}

impl<R: Read> Source for StdSource<R> {
    ghost use Rattle.std.specs.Prelude.{None};

    ghost left = { λ _. None };

    ghost failures = { λ s. s.faults };

    fn faults(&self) -> u64 {
        self.faults
    }

    /// Each error of the stream is a fault, and no end. What was read is what the stream gave.
    fn read(&mut self, into: &mut [u8]) -> Result<usize, Refusal>
        ensures bound { ReadsAtMost result into.new }
        ensures bytes { Gives None None result into.new }
        ensures end { IfOk result (λ n. n ≡ 0 → 0 < length into.new → IsSpent None) }
        ensures cause { HasCause self.old.faults self.new.faults result }
        ensures steady { OnOk result (self.new.faults ≡ self.old.faults) }

        ensures told { ReadConsumes self.old.left self.new.left result into.new }
        ensures fault { OnErr result (self.new.faults ≡ raised self.old.faults) }
    {
        match self.stream.read(into) {
            Ok(count) => Ok(count),
            Err(_) => {
                self.faults = self.faults.saturating_add(1);
                Err(Refusal::Fault)
            }
        }
    }
}
