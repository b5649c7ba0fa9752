//! The desk. The ends in a record are those of the connection that it names, each on its side, and
//! a donor's end that waits is as it was made. The net made each of these connections. A place is a
//! number of 32 bits.
ghost use Rattle.std.specs.Prelude.{◌≡◌, [], IfOk, OnErr, position};
ghost use Rattle.clone_outside.specs.Causes.{HasCause};
ghost use Rattle.clone_desk.specs.Records.{does_wait_for};
ghost use Rattle.clone_desk.specs.Desks.{Fits, HandsOut, IsDesk, Keeps, Makes, MakesNone, StayMade, StayNamed};

use crate::record::{DonorEnd, Record};
use clone_outside::{Link, Net, Refusal, Side};
use std::alloc::Global;
use std::marker::Model;
use std::snapshot::Snapshot;

/// A net, and a record of each connection that it made here.
#[derive(Drop)]
pub struct Desk<N: Net> {
    net: N,
    records: Vec<Record<N::End>>,
}

impl<N: Net> Model for Desk<N> {
    ghost use Rattle.clone_desk.specs.Desks.{DeskModel, IsDesk};

    ghost Value = { DeskModel N N.End };

    ghost view = { λ d. record { net = d.net; records = d.records.items } };

    ghost invariant = { λ d. IsDesk N.Net N.End.Link d.net d.records.items };
}

impl<N: Net> Desk<N>
where
    N::End: Drop,
{
    /// A desk where no connection was made.
    pub fn new(alloc: Global, net: N) -> Desk<N>
        ensures net { result.net ≡ net }
        ensures records { result.records ≡ [] }
    {
        Desk {
            net,
            records: Vec::new(alloc),
        }
    }

    /// Makes a connection for the task. Its donor's end waits at the place, which is the number of
    /// connections that were made before. The other end is the task's.
    ///
    /// The error is `Fault` where the net's count of faults rose, or `NoMemory`. No connection was
    /// made then.
    pub fn pair(&mut self, task: u8) -> Result<(u32, N::End), Refusal>
        ensures made { IfOk result (λ r. Makes N.Net N.End.Link self.old task r.0 r.1 self.new) }
        ensures refused { OnErr result (MakesNone N.Net N.End.Link self.old self.new) }
        ensures keeps { StayMade N.Net N.End.Link self.old self.new }
        ensures named { StayNamed N.End.Link self.old self.new }
        ensures cause { HasCause (N.failures self.old.net) (N.failures self.new.net) result }
    {
        let Ok(place) = u32::try_from(self.records.len()) else {
            return Err(Refusal::NoMemory);
        };
        self.records.reserve(1)?;
        let (donor_end, end) = self.net.pair()?;
        let about = Snapshot::of(&end);
        self.records.push_reserved(Record {
            task,
            about,
            donor: DonorEnd::Waits(donor_end),
            requester: None,
        });
        Ok((place, end))
    }

    /// Hands out the donor's end that waits for the task at the least place, with the place. None
    /// comes where none waits for it.
    pub fn donor_end(&mut self, task: u8) -> Option<(u32, N::End)>
        ensures end { HandsOut N.Net N.End.Link self.old task result self.new }
        ensures named { StayNamed N.End.Link self.old self.new }
    {
        let place = self.waiting_for(task)?;
        let end = self.records[place].hand_out()?;
        Some((place as u32, end))
    }

    /// Keeps an end that was handed out, in its record. Where an end of that side is there already,
    /// that one stays.
    pub fn give_back(&mut self, place: u32, side: Side, end: N::End)
        requires { Fits N.End.Link self.old place side end }
        ensures kept { Keeps self.old place side end self.new }
        ensures named { StayNamed N.End.Link self.old self.new }
    {
        self.records[place as usize].keep(side, end);
    }

    /// The net, and the records, each of a connection that the net made.
    pub(crate) fn into_parts(self) -> (N, Vec<Record<N::End>>)
        ensures net { result.0 ≡ self.net }
        ensures records { result.1.items ≡ self.records }
        ensures desk { IsDesk N.Net N.End.Link self.net self.records }
    {
        let Desk { net, records } = self;
        (net, records)
    }

    // The least place at which a donor's end waits for the task.
    fn waiting_for(&self, task: u8) -> Option<usize>
        ensures { result ≡ position (does_wait_for task) self.now.records }
    {
        self.records
            .iter()
            .position(|record| record.waits_for(task))
    }
}
