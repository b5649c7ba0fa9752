//! Makes connections over TCP on this host. Those that are settled are no more than were made.
ghost use Rattle.std.specs.Prelude.{◌≡◌, ◌+◌, ◌-◌, ◌^◌, ◌<◌, ◌≤◌, ℕ, min, IfOk, OnOk, OnErr};
ghost use Rattle.clone_outside.specs.Causes.{HasCause, raised};
ghost use Rattle.clone_outside.specs.declared.link.Side.TheVariants.{Donor, Requester};
ghost use Rattle.clone_real.specs.Sockets.{fresh_net, new_end};

use crate::socket_end::SocketEnd;
use clone_outside::{Link, Net, Refusal, Side};
use std::io::ErrorKind;
use std::marker::Model;
use std::net::{Ipv4Addr, SocketAddr, TcpListener, TcpStream};
use std::time::Duration;
use std::{io, net};

// For how many seconds a connect waits for the listener.
const CONNECT_WAIT: u64 = 5;

// For how many milliseconds a receive waits for bytes.
const RECEIVE_WAIT: u64 = 1;

// How many connections of others are refused before a pair is given up.
const MOST_STRANGERS: usize = 1_024;

/// What makes connections over TCP. The two ends of each are connected on the loopback address, by
/// a listener that is closed once they are connected; whoever else connects to it is refused.
#[derive(Drop)]
pub struct SocketNet {
    rt: HostRuntime,
    made: u64,
    settled: u64,
    planned: u32,
    faults: u64,
}

impl Model for SocketNet {
    ghost use Rattle.std.specs.Prelude.{◌-◌, ◌≤◌};
    ghost use Rattle.clone_real.specs.Sockets.{SocketNetModel};

    ghost Value = { SocketNetModel };

    ghost view = { λ n. record {
      made = n.made;
      unsettled = n.made - n.settled;
      planned = n.planned;
      faults = n.faults;
    } };

    ghost invariant = { λ n. n.settled ≤ n.made };
}

impl SocketNet {
    /// A net that made no connection, with no faults.
    pub fn new(rt: HostRuntime) -> SocketNet
        ensures { result ≡ fresh_net }
    {
        SocketNet {
            rt,
            made: 0,
            settled: 0,
            planned: 0,
            faults: 0,
        }
    }
}

impl Net for SocketNet {
    ghost use Rattle.std.specs.Prelude.{◌<◌};

    type End = SocketEnd;

    ghost made = { λ n name. name < n.made };

    ghost unsettled = { λ n. n.unsettled };

    ghost planned = { λ n. n.planned };

    ghost failures = { λ n. n.faults };

    fn faults(&self) -> u64 {
        self.faults
    }

    /// Connects two sockets. Each error of the system is a fault.
    fn pair(&mut self) -> Result<(SocketEnd, SocketEnd), Refusal>
        ensures donor { IfOk result (λ r. r.0 ≡ new_end self.old.made Donor) }
        ensures requester { IfOk result (λ r. r.1 ≡ new_end self.old.made Requester) }
        ensures made { OnOk result (self.new ≡ record self.old {
          made = self.old.made + 1;
          unsettled = self.old.unsettled + 1;
        }) }
        ensures failed { OnErr result
            (self.new ≡ record self.old { faults = raised self.old.faults }) }
        ensures keeps { (n : ℕ) → n < self.old.made → n < self.new.made }
        ensures planned { self.new.planned ≡ self.old.planned }
        ensures cause { HasCause self.old.faults self.new.faults result }
    {
        let number = self.made;
        match connected(&self.rt) {
            Ok((donor, requester)) if number < u64::MAX => {
                self.made = number + 1;
                Ok((
                    SocketEnd::new(donor, number, Side::Donor),
                    SocketEnd::new(requester, number, Side::Requester),
                ))
            }
            _ => {
                self.faults = self.faults.saturating_add(1);
                Err(Refusal::Fault)
            }
        }
    }

    /// Takes both ends back, and closes those that are open. Their faults are then its own.
    fn settle(&mut self, donor_end: SocketEnd, requester_end: SocketEnd)
        ensures count { self.old.faults ≤ self.new.faults }

        ensures settled { self.new ≡ record self.old {
          unsettled = self.old.unsettled - 1;
          faults = min (self.old.faults + donor_end.faults + requester_end.faults) (2 ^ 64 - 1);
        } }
    {
        let found = donor_end.faults().saturating_add(requester_end.faults());
        self.faults = self.faults.saturating_add(found);
        if self.settled < self.made {
            self.settled += 1;
        }
    }

    /// Notes the number, and cuts none.
    fn plan_cuts(&mut self, connections: u32)
        ensures planned { self.new ≡ record self.old { planned = connections } }
    {
        self.planned = connections;
    }
}

// Both ends of a new connection, the donor's first.
fn connected<R: net::Net<Stream = TcpStream, Listener = TcpListener>>(
    rt: &R,
) -> io::Result<(TcpStream, TcpStream)> {
    let listener = TcpListener::bind(rt, SocketAddr::from((Ipv4Addr::LOCALHOST, 0)))?;
    let wait = Duration::from_secs(CONNECT_WAIT);
    let requester = TcpStream::connect_timeout(rt, &listener.local_addr()?, wait)?;
    let donor = accept_from(&listener, requester.local_addr()?)?;
    prepare(&donor)?;
    prepare(&requester)?;
    Ok((donor, requester))
}

/// Accepts the connection that comes from this address, and refuses those that come before it, as a
/// net does for each of its pairs. The error is one of the system, or that 1,024 others came.
pub fn accept_from(listener: &TcpListener, address: SocketAddr) -> io::Result<TcpStream> {
    for _ in 0..MOST_STRANGERS {
        let (stream, from) = listener.accept()?;
        if from == address {
            return Ok(stream);
        }
    }
    Err(io::Error::from(ErrorKind::ConnectionRefused))
}

// Sends each piece at once, and lets no read wait long.
fn prepare(stream: &TcpStream) -> io::Result<()> {
    stream.set_nodelay(true)?;
    stream.set_read_timeout(Some(Duration::from_millis(RECEIVE_WAIT)))
}
