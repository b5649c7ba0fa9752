//! The connections by their numbers, and for each task the one that it has. What a task has is a
//! connection that is there. No connection before `first_open` is open at the donor's end.
ghost use Rattle.std.specs.Prelude.{◌≡◌, ◌<◌, ◌≤◌, ◌≢◌, IfOk, IfNone, IfSome, OnErr, OnOk, Some, length};
ghost use Rattle.std.specs.Prelude.{false, slice_get, true};
ghost use Rattle.clone_network.specs.Connections.{cut_at};
ghost use Rattle.clone_network.specs.Networks.{AreEnded, StepsDonor, fed, gives_up};
ghost use Rattle.clone_network.specs.Networks.{hung_up, is_connected, is_open_at, on_connected, unconnected};
ghost use Rattle.clone_network.specs.Networks as network;

use crate::{Connection, DonorStep};
use clone_calls::Answers;
use clone_fetch::FetchCore;
use clone_serve::ServeAnswer;
use std::alloc::{AllocError, Global};
use std::marker::Model;

/// A task's side: its core, and the connection that it has.
#[derive(Clone, Copy)]
pub struct Seat {
    pub(crate) core: FetchCore,
    pub(crate) connection: Option<usize>,
}

impl Model for Seat {
    ghost use Rattle.clone_network.specs.Networks as network;

    ghost Value = { network.Seat };

    ghost view = { λ s. record { made = s.core; connection = s.connection } };

    ghost inverse = { λ s. record { core = s.made; connection = s.connection } };
}

/// The connections between a donor and the tasks of a requester.
#[derive(Drop)]
pub struct Network {
    pub(crate) connections: Vec<Connection>,
    pub(crate) seats: Vec<Seat>,
    pub(crate) first_open: usize,
}

impl Model for Network {
    ghost use Rattle.std.specs.Prelude.{◌≤◌, length};
    ghost use Rattle.std.specs.List.{AllByRecursion};
    ghost use Rattle.clone_network.specs.Networks as network;

    ghost Value = { network.Network };

    ghost view = { λ n. record { connections = n.connections.items; seats = n.seats.items } };

    ghost invariant = { λ n.
        AllByRecursion (network.HasIts (length n.connections.items)) n.seats.items
        × network.AreEnded n.connections.items 0 n.first_open
        × (n.first_open ≤ length n.connections.items) };
}

impl Network {
    /// So many tasks, none of which has connected yet.
    pub fn new(alloc: Global, tasks: u8) -> Result<Network, AllocError>
        ensures { IfOk result (λ n. n ≡ unconnected tasks) }
    {
        let mut seats = Vec::with_capacity(alloc, tasks as usize)?;
        let seat = Seat {
            core: FetchCore::new(),
            connection: None,
        };
        seats.resize(tasks as usize, seat)?;
        Ok(Network {
            connections: Vec::new(alloc),
            seats,
            first_open: 0,
        })
    }

    /// A step of the donor on the connection with this number.
    pub fn step_donor<A: Answers>(&mut self, alloc: Global, donor: &mut A, number: u32) -> DonorStep
        ensures { StepsDonor A.gives donor.old donor.new number self.old self.new result }
    {
        let number = number as usize;
        if number >= self.connections.len() {
            return DonorStep::Served(ServeAnswer::Idle);
        }
        let answer = self.connections[number].step(alloc, donor);
        self.pass_ended();
        answer
    }

    // Passes over the connections at the front that have ended.
    fn pass_ended(&mut self)
        ensures { self.new ≡ self.old }
    {
        self.first_open = match self.open_from(self.first_open) {
            Some(number) => number,
            None => self.connections.len(),
        };
    }

    /// The first connection from this number on that is open at the donor's end.
    pub fn next_open(&self, from: u32) -> Option<usize>
        ensures some { IfSome result (λ c. is_open_at self.now.connections c ≡ true) }
        ensures from { IfSome result (λ c. from ≤ c) }
        ensures before { IfSome result (λ c. AreEnded self.now.connections from c) }
        ensures none { IfNone result (AreEnded self.now.connections from
            (length self.now.connections)) }
    {
        self.open_from(self.first_open.max(from as usize))
    }

    // The first connection from this number on that is open.
    fn open_from(&self, from: usize) -> Option<usize>
        ensures some { IfSome result (λ c. is_open_at self.now.connections c ≡ true) }
        ensures from { IfSome result (λ c. from ≤ c) }
        ensures before { IfSome result (λ c. AreEnded self.now.connections from c) }
        ensures none { IfNone result (AreEnded self.now.connections from
            (length self.now.connections)) }
    {
        let mut number = from;
        while number < self.connections.len() {
            if self.connections[number].is_open() {
                return Some(number);
            }
            number += 1;
        }
        None
    }

    /// The connection with this number is cut, and of what isn't read so many bytes are kept, each
    /// way. Answers whether its task has it still; otherwise nothing changes.
    pub fn cut(&mut self, number: u32, to_donor: u32, to_task: u32) -> bool
        ensures connected { result ≡ is_connected self.old.connections number }
        ensures cuts { self.new ≡ on_connected number (cut_at to_donor to_task) self.old }
    {
        let Some(at) = self.connected(number) else {
            return false;
        };
        let connection = &mut self.connections[at];
        connection.cut(to_donor, to_task);
        true
    }

    /// Bytes come to the task that the donor didn't send. Answers whether the task has the
    /// connection still; otherwise nothing changes. The error is out of memory.
    pub fn feed(&mut self, number: u32, bytes: &[u8]) -> Result<bool, AllocError>
        ensures connected { IfOk result (λ c. c ≡ is_connected self.old.connections number) }
        ensures feeds { OnOk result (self.new ≡ on_connected number (fed bytes.now) self.old) }
        ensures err { OnErr result (self.new ≡ self.old) }
    {
        let Some(at) = self.connected(number) else {
            return Ok(false);
        };
        let connection = &mut self.connections[at];
        connection.feed(bytes)?;
        Ok(true)
    }

    // Where the connection with this number stands, if its task has it still.
    fn connected(&self, number: u32) -> Option<usize>
        ensures place { IfSome result (λ at. at ≡ number) }
        ensures there { IfSome result (λ at. at < length self.now.connections) }
        ensures held { IfSome result (λ _. is_connected self.now.connections number ≡ true) }
        ensures none { IfNone result (is_connected self.now.connections number ≡ false) }
    {
        match self.connections.get(number as usize) {
            Some(connection) if connection.is_held => Some(number as usize),
            _ => None,
        }
    }

    // After a loss no task has its connection any more.
    pub(crate) fn hang_up(&mut self, alloc: Global)
        ensures { self.new ≡ hung_up self.old }
    {
        for task in 0..self.seats.len() {
            self.give_up(alloc, task);
        }
    }

    // A task gives its connection up.
    fn give_up(&mut self, alloc: Global, task: usize)
        requires { task < length self.old.seats }
        ensures { (seat : network.Seat) → slice_get self.old.seats task ≡ Some seat
            → self.new ≡ gives_up task seat self.old }
    {
        let seat = self.seats[task];
        self.seats[task] = Seat {
            core: seat.core,
            connection: None,
        };
        if let Some(number) = seat.connection {
            let connection = &mut self.connections[number];
            connection.give_up(alloc);
        }
    }
}
