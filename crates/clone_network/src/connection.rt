ghost use Rattle.std.specs.Prelude.{◌≡◌, OnErr, OnOk, slice_get};
ghost use Rattle.clone_network.specs.Connections.{cut_at, given_up, is_open, link_over, opened};
ghost use Rattle.clone_network.specs.Networks.{fed};

use clone_serve::ServeCore;
use clone_tasks::Link;
use std::alloc::{AllocError, Global};
use std::marker::Model;

/// One connection, with the donor's end of it.
#[derive(Drop)]
pub struct Connection {
    pub(crate) to_donor: Vec<u8>,
    pub(crate) to_task: Vec<u8>,
    pub(crate) end: ServeCore,
    pub(crate) is_held: bool,
    pub(crate) is_cut: bool,
    pub(crate) is_left: bool,
}

impl Model for Connection {
    ghost use Rattle.clone_network.specs.Connections as network;

    ghost Value = { network.Connection };

    ghost view = { λ c. record {
      to_donor = c.to_donor.items;
      to_task = c.to_task.items;
      doing = c.end;
      held = c.is_held;
      cut = c.is_cut;
      found_lost = c.is_left;
    } };
}

impl Connection {
    /// One on which somebody has sent this who reads no answer.
    pub fn unread(alloc: Global, sent: Vec<u8>) -> Connection
        ensures { result ≡ given_up (opened sent.items) }
    {
        let mut connection = Connection::opened(alloc, sent);
        connection.give_up(alloc);
        connection
    }

    // A new one, on which its task has sent this.
    pub(crate) fn opened(alloc: Global, sent: Vec<u8>) -> Connection
        ensures { result ≡ opened sent.items }
    {
        Connection {
            to_donor: sent,
            to_task: Vec::new(alloc),
            end: ServeCore::new(),
            is_held: true,
            is_cut: false,
            is_left: false,
        }
    }

    /// Whether the loop of the donor's end goes on.
    pub fn is_open(&self) -> bool
        ensures { result ≡ is_open self.now }
    {
        !self.is_left && !self.end.is_over()
    }

    /// The first byte that the donor has not read, if there is one: the code of the next command.
    pub fn first_code(&self) -> Option<u8>
        ensures { result ≡ slice_get self.now.to_donor 0 }
    {
        self.to_donor.first().copied()
    }

    // How it looks to its task.
    pub(crate) fn link(&self) -> Link
        ensures { result ≡ link_over self.now }
    {
        if self.is_cut || !self.is_open() {
            Link::Lost
        } else {
            Link::Up
        }
    }

    // It is cut, and of what isn't read so many bytes are kept, each way.
    pub(crate) fn cut(&mut self, to_donor: u32, to_task: u32)
        ensures { self.new ≡ cut_at to_donor to_task self.old }
    {
        self.to_donor.truncate(to_donor as usize);
        self.to_task.truncate(to_task as usize);
        self.is_cut = true;
    }

    // Bytes come that the donor didn't send. The error is out of memory, and none has come.
    pub(crate) fn feed(&mut self, bytes: &[u8]) -> Result<(), AllocError>
        ensures ok { OnOk result (self.new ≡ fed bytes.now self.old) }
        ensures err { OnErr result (self.new ≡ self.old) }
    {
        self.to_task.extend_from_slice(bytes)
    }

    // Its task gives it up. What wasn't read is dropped with its memory.
    pub(crate) fn give_up(&mut self, alloc: Global)
        ensures { self.new ≡ given_up self.old }
    {
        self.to_task = Vec::new(alloc);
        self.is_held = false;
    }
}
