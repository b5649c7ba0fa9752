ghost use Rattle.std.specs.Prelude.{◌≡◌, ◌≤◌, false, None};
ghost use Rattle.clone_outside.specs.Link.{Receives, GivesSome, LossRose, RefusalRose};
ghost use Rattle.clone_real.specs.Sockets.{after_send, after_receive, new_end};

use clone_outside::{Link, LinkRefusal, Received, Side};
use std::io::{ErrorKind, Read, Write};
use std::marker::Model;
use std::net::{Shutdown, TcpStream};

// How many pieces of bytes that nobody receives an end takes in at most when it is closed.
const LAST_PIECES: usize = 256;

const LAST_PIECE: usize = 16_384;

/// One end of a connection over TCP. Contracts know nothing of its bytes.
#[derive(Drop)]
pub struct SocketEnd {
    stream: Option<TcpStream>,
    number: u64,
    side: Side,
    faults: u64,
}

impl Model for SocketEnd {
    ghost use Rattle.std.specs.Prelude.{is_some};
    ghost use Rattle.clone_real.specs.Sockets.{SocketEndModel};

    ghost Value = { SocketEndModel };

    ghost view = { λ e. record {
      number = e.number;
      side = e.side;
      is_open = is_some e.stream;
      faults = e.faults;
    } };
}

impl SocketEnd {
    // The open end of the connection with this number.
    pub(crate) fn new(stream: TcpStream, number: u64, side: Side) -> SocketEnd
        ensures { result ≡ new_end number side }
    {
        SocketEnd {
            stream: Some(stream),
            number,
            side,
            faults: 0,
        }
    }
}

impl Link for SocketEnd {
    ghost use Rattle.std.specs.Prelude.{None};

    type Name = u64;

    ghost name = { λ e. e.number };

    ghost side = { λ e. e.side };

    ghost is_open = { λ e. e.is_open };

    ghost sent = { λ _. None };

    ghost received = { λ _. None };

    ghost failures = { λ e. e.faults };

    fn faults(&self) -> u64 {
        self.faults
    }

    /// Waits while the system has no room. Each of its errors is a loss.
    fn send(&mut self, from: &[u8]) -> Result<(), LinkRefusal>
        ensures count { self.old.faults ≤ self.new.faults }
        ensures cause { RefusalRose self.old.faults self.new.faults result }

        ensures after { self.new ≡ after_send self.old result }
    {
        let sent = match &mut self.stream {
            Some(stream) => stream.write_all(from).is_ok(),
            None => false,
        };
        if sent {
            return Ok(());
        }
        self.faults = self.faults.saturating_add(1);
        Err(LinkRefusal::Lost)
    }

    /// Waits a short time for bytes, if none are there. The end of the stream and each error of the
    /// system are a loss.
    fn receive(&mut self, into: &mut [u8]) -> Result<Received, LinkRefusal>
        ensures bytes { Receives None None result into.new }
        ensures some { GivesSome result into.new }
        ensures count { self.old.faults ≤ self.new.faults }
        ensures cause { LossRose self.old.faults self.new.faults result }

        ensures after { self.new ≡ after_receive self.old result }
    {
        if into.is_empty() {
            return Ok(Received::Bytes(0));
        }
        let got = match &mut self.stream {
            Some(stream) => stream.read(into),
            None => Ok(0),
        };
        match got {
            Ok(count) if count > 0 => return Ok(Received::Bytes(count)),
            Err(error) if is_wait(error.kind()) => return Ok(Received::Nothing),
            _ => {}
        }
        self.faults = self.faults.saturating_add(1);
        Ok(Received::Lost)
    }

    /// Closes both ways. What the other end sent by now is taken in first, so that the system
    /// delivers what this end sent.
    fn close(&mut self)
        ensures closed { self.new ≡ record self.old { is_open = false } }
    {
        if let Some(mut stream) = self.stream.take() {
            take_leave(&mut stream);
        }
    }
}

// The time to wait is over, or a signal came.
fn is_wait(kind: ErrorKind) -> bool {
    matches!(
        kind,
        ErrorKind::WouldBlock | ErrorKind::TimedOut | ErrorKind::Interrupted
    )
}

// Ends what this end sends, and takes in what is there.
fn take_leave(stream: &mut TcpStream) {
    if stream.shutdown(Shutdown::Write).is_err() {
        return;
    }
    let mut piece = [0; LAST_PIECE];
    for _ in 0..LAST_PIECES {
        match stream.read(&mut piece) {
            Ok(count) if count > 0 => {}
            _ => return,
        }
    }
}
