//! A connection as a machine: what is on the way to either end, and which ends are closed.
ghost use Rattle.std.specs.Prelude.{◌≡◌, ◌↔◌, List, IsTrue};
ghost use Rattle.clone_turn.specs.Runs.{IsLegalRun};
ghost use Rattle.clone_memlink.specs.declared.connection.Connection.{Connection};
ghost use Rattle.clone_memlink.specs.Ends.{LinkEntry, CarriesAll, IsHonest};
ghost use Rattle.clone_memlink.specs.Connections.{IsLost, Gives, Sends, Receives, Steps, with_closed};

use crate::piece::Piece;
use crate::way::Way;
use clone_outside::Side;
use clone_turn::Machine;

/// What is on the way to each end, and which ends are closed.
#[derive(Drop)]
pub struct Connection {
    pub to_donor: Way,
    pub to_requester: Way,
    pub donor_closed: bool,
    pub requester_closed: bool,
}

/// A call of one of the ends.
#[derive(Drop)]
pub enum LinkCall {
    /// Bytes for the other end.
    Send(Side, Piece),
    /// At most so many bytes are asked for.
    Receive(Side, usize),
    Close(Side),
}

/// What a call is answered.
#[derive(Drop)]
pub enum LinkAnswer {
    /// So many bytes were sent, from the front: none where there is no room.
    Sent(usize),
    /// The bytes that were received.
    Bytes(Piece),
    /// There is no byte, and the connection isn't lost.
    Nothing,
    /// The connection is cut, or the other end is closed. Of a receive: and no byte is left.
    Lost,
    Closed,
    /// There was no memory, and nothing was sent.
    NoMemory,
}

impl Connection {
    /// Whether the connection is lost for this end: it is cut, or the other end is closed.
    pub fn is_lost(&self, side: Side) -> bool
        ensures { IsTrue result ↔ IsLost side self.now }
    {
        let closed = match side {
            Side::Donor => self.requester_closed,
            Side::Requester => self.donor_closed,
        };
        closed || self.to_donor.is_cut() || self.to_requester.is_cut()
    }

    fn send(&mut self, side: Side, piece: &Piece) -> LinkAnswer
        ensures { Sends side self.old piece.now result self.new }
    {
        if self.is_lost(side) {
            return LinkAnswer::Lost;
        }
        let sent = match side {
            Side::Donor => self.to_requester.deliver(piece.as_slice()),
            Side::Requester => self.to_donor.deliver(piece.as_slice()),
        };
        match sent {
            Ok(n) => LinkAnswer::Sent(n),
            Err(_) => LinkAnswer::NoMemory,
        }
    }

    fn receive(&mut self, side: Side, most: usize) -> LinkAnswer
        ensures { Receives side self.old most result self.new }
    {
        let lost = self.is_lost(side);
        match side {
            Side::Donor => receive_from(&mut self.to_donor, most, lost),
            Side::Requester => receive_from(&mut self.to_requester, most, lost),
        }
    }

    fn close(&mut self, side: Side)
        ensures { self.new ≡ with_closed side self.old }
    {
        match side {
            Side::Donor => self.donor_closed = true,
            Side::Requester => self.requester_closed = true,
        }
    }
}

fn receive_from(way: &mut Way, most: usize, lost: bool) -> LinkAnswer
    ensures { Gives way.old most (IsTrue lost) result way.new }
{
    if !way.is_empty() {
        return LinkAnswer::Bytes(way.receive(most));
    }
    if lost {
        LinkAnswer::Lost
    } else {
        LinkAnswer::Nothing
    }
}

/// The machine of a connection.
pub struct LinkMachine;

impl Machine for LinkMachine {
    ghost use Rattle.std.specs.Prelude.{refl};

    type State = Connection;

    type Call = LinkCall;

    type Answer = LinkAnswer;

    type Key = ();

    ghost steps = { Steps };

    ghost fits = { λ _ _. Unit {0} };

    ghost key = { λ _. tt };

    fn step(state: &mut Connection, call: LinkCall) -> LinkAnswer {
        match call {
            LinkCall::Send(side, piece) => state.send(side, &piece),
            LinkCall::Receive(side, most) => state.receive(side, most),
            LinkCall::Close(side) => {
                state.close(side);
                LinkAnswer::Closed
            }
        }
    }

    ghost keeps_key = { λ s c a t follows. refl };

    ghost still_fits = { λ d s c a t fits follows. tt };
}

/// A law of connections: what each end received begins what the other sent, in every legal run from
/// a connection with nothing on the way.
pub fn received_begins_sent()
    ensures carries { (first : Connection) (run : List LinkEntry) → IsLegalRun Steps first run
        → CarriesAll first run }
    ensures honest { (first : Connection) (run : List LinkEntry) → IsLegalRun Steps first run
        → IsHonest first run }
{}
