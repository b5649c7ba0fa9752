//! What makes connections in memory. Those that were made stand in the order of their making, and
//! the first `settled` of them are settled: never more than there are.
ghost use Rattle.std.specs.Prelude.{◌≡◌, ◌+◌, ◌-◌, ◌^◌, ◌≤◌, min, true, Some, IfOk, OnOk, OnErr, length};
ghost use Rattle.std.specs.FinMap as finite;
ghost use Rattle.clone_outside.specs.Causes.{HasCause};
ghost use Rattle.clone_outside.specs.Link.{IsUnused, ReceivedOf};
ghost use Rattle.clone_outside.specs.declared.link.Side.TheVariants.{Donor, Requester};
ghost use Rattle.clone_turn.specs.Seats.{CellModel};
ghost use Rattle.clone_memlink.specs.declared.connection.Connection.{Connection};
ghost use Rattle.clone_memlink.specs.Held.{sent_by, received_by};
ghost use Rattle.clone_memlink.specs.Nets.{fresh_net, IsMade, cuts_of, lesser, planned_here, cut_to_donor, cut_to_requester, begun_as, IsNewEnd};

use crate::connection::{Connection, LinkMachine};
use crate::cut::{Cut, PLANNED_CUT};
use crate::mem_end::MemEnd;
use crate::way::Way;
use clone_outside::{Link, Net, Refusal};
use clone_turn::TurnCell;
use std::alloc::{AllocError, Global};
use std::collections::BTreeMap;
use std::marker::Model;
use std::snapshot::Snapshot;
use std::sync::Wait;

/// What makes connections in memory. It remembers them in contracts alone, by snapshots of no
/// bytes.
#[derive(Drop)]
pub struct MemNet<R> {
    rt: R,
    alloc: Global,
    made: Vec<Snapshot<TurnCell<LinkMachine>>>,
    settled: usize,
    planned: u32,
    cuts: BTreeMap<usize, Cut>,
    faults: u64,
}

impl<R> Model for MemNet<R> {
    ghost use Rattle.std.specs.Prelude.{◌-◌, ◌≤◌, length, map};
    ghost use Rattle.clone_memlink.specs.Nets.{NetModel};

    ghost Value = { NetModel };

    ghost view = { λ n. record {
      made = map (λ s. s.value) n.made.items;
      unsettled = length n.made.items - n.settled;
      planned = n.planned;
      cuts = n.cuts.entries;
      faults = n.faults;
    } };

    ghost invariant = { λ n. n.settled ≤ length n.made.items };
}

impl<R> MemNet<R> {
    /// A net that made no connection, with no faults and no cuts. Its ends wait by this runtime.
    pub fn new(rt: R, alloc: Global) -> MemNet<R>
        ensures { result ≡ fresh_net }
    {
        MemNet {
            rt,
            alloc,
            made: Vec::new(alloc),
            settled: 0,
            planned: 0,
            cuts: BTreeMap::new(alloc),
            faults: 0,
        }
    }

    /// Lets a connection that is made later be cut once so many bytes were delivered to either end.
    /// The connections are numbered from 0, and a later call for the same one replaces this.
    ///
    /// The error comes where there was no memory, and the plan is then as before.
    pub fn cut_at(
        &mut self,
        connection: u32,
        to_donor: u64,
        to_requester: u64,
    ) -> Result<(), AllocError>
        ensures planned { OnOk result
            (cuts_of self.new.cuts ≡ finite.insert (cuts_of self.old.cuts) connection
            (record { to_donor = to_donor; to_requester = to_requester })) }
        ensures refused { OnErr result (cuts_of self.new.cuts ≡ cuts_of self.old.cuts) }
        ensures same { self.new ≡ record self.old { cuts = self.new.cuts } }
    {
        let cut = Cut {
            to_donor,
            to_requester,
        };
        plan_cut(&mut self.cuts, connection as usize, cut)
    }

    // After how many bytes to the donor the next connection is cut.
    fn cut_to_donor(&self) -> Option<u64>
        ensures { result ≡ cut_to_donor self.now (length self.now.made) }
    {
        let cut = planned_cut(&self.cuts, self.made.len())?;
        Some(cut.to_donor)
    }

    // After how many bytes to the requester.
    fn cut_to_requester(&self) -> Option<u64>
        ensures { result ≡ cut_to_requester self.now (length self.now.made) }
    {
        let number = self.made.len();
        let first = self.planned_here(number);
        match planned_cut(&self.cuts, number) {
            Some(cut) => lesser(Some(cut.to_requester), first),
            None => first,
        }
    }

    fn planned_here(&self, number: usize) -> Option<u64>
        ensures { result ≡ planned_here number self.now.planned }
    {
        if number < self.planned as usize {
            Some(PLANNED_CUT)
        } else {
            None
        }
    }

    // The next connection, with nothing on the way.
    fn next_connection(&self) -> Result<Connection, AllocError>
        ensures { IfOk result (λ s. s ≡ begun_as self.now (length self.now.made)) }
    {
        Ok(Connection {
            to_donor: Way::new(self.alloc, self.cut_to_donor())?,
            to_requester: Way::new(self.alloc, self.cut_to_requester())?,
            donor_closed: false,
            requester_closed: false,
        })
    }

    // One connection less is unsettled.
    fn count_settled(&mut self)
        ensures { self.new ≡ record self.old { unsettled = self.old.unsettled - 1 } }
    {
        if self.settled < self.made.len() {
            self.settled += 1;
        }
    }
}

// The lesser of two bounds, where none is no bound.
fn lesser(one: Option<u64>, other: Option<u64>) -> Option<u64>
    ensures { result ≡ lesser one other }
{
    match (one, other) {
        (Some(x), Some(y)) => Some(x.min(y)),
        (Some(x), None) => Some(x),
        (None, other) => other,
    }
}

fn planned_cut(cuts: &BTreeMap<usize, Cut>, number: usize) -> Option<Cut>
    ensures { result ≡ finite.get (cuts_of cuts.now.entries) number }
{
    cuts.get(&number).copied()
}

fn plan_cut(cuts: &mut BTreeMap<usize, Cut>, number: usize, cut: Cut) -> Result<(), AllocError>
    ensures ok { OnOk result
        (cuts_of cuts.new.entries ≡ finite.insert (cuts_of cuts.old.entries) number cut) }
    ensures err { OnErr result (cuts_of cuts.new.entries ≡ cuts_of cuts.old.entries) }
{
    cuts.insert(number, cut)?;
    Ok(())
}

impl<R: Wait + Copy + Drop> Net for MemNet<R> {
    ghost use Rattle.clone_memlink.specs.Nets.{IsMade};

    type End = MemEnd<R>;

    ghost made = { λ n name. IsMade n.made name };

    ghost unsettled = { λ n. n.unsettled };

    ghost planned = { λ n. n.planned };

    ghost failures = { λ n. n.faults };

    fn faults(&self) -> u64 {
        self.faults
    }

    /// Makes a connection with nothing on the way, which is cut as it was planned. It never fails.
    fn pair(&mut self) -> Result<(MemEnd<R>, MemEnd<R>), Refusal>
        ensures name { IfOk result (λ r. ◌≡◌ r.0.name r.1.name) }
        ensures made { IfOk result (λ r. IsMade self.new.made r.0.name) }
        ensures sides { IfOk result (λ r. (r.0.side ≡ Donor) × (r.1.side ≡ Requester)) }
        ensures open { IfOk result (λ r. (r.0.is_open ≡ true) × (r.1.is_open ≡ true)) }
        ensures sent { IfOk result
            (λ r. IsUnused (Some (sent_by r.0)) × IsUnused (Some (sent_by r.1))) }
        ensures received { IfOk result
            (λ r. IsUnused (Some (received_by r.0)) × IsUnused (Some (received_by r.1))) }
        ensures keeps { (n : CellModel Connection) → IsMade self.old.made n
            → IsMade self.new.made n }
        ensures more { OnOk result (self.new.unsettled ≡ self.old.unsettled + 1) }
        ensures refused { OnErr result (self.new.unsettled ≡ self.old.unsettled) }
        ensures planned { self.new.planned ≡ self.old.planned }
        ensures cause { HasCause self.old.faults self.new.faults result }
        ensures ends { IfOk result (λ r.
            IsNewEnd (begun_as self.old (length self.old.made)) Donor r.0
            × IsNewEnd (begun_as self.old (length self.old.made)) Requester r.1) }
        ensures number { OnOk result (length self.new.made ≡ length self.old.made + 1) }
        ensures calm { self.new.faults ≡ self.old.faults }
        ensures cuts { self.new.cuts ≡ self.old.cuts }
        ensures err { OnErr result (self.new ≡ self.old) }
    {
        let first = self.next_connection()?;
        let (donor, requester) = MemEnd::open(self.rt, self.alloc, first)?;
        self.made.push(donor.name())?;
        Ok((donor, requester))
    }

    /// Joins both ends of a connection, and closes it. The faults of the ends are then its own.
    fn settle(&mut self, donor_end: MemEnd<R>, requester_end: MemEnd<R>)
        requires made { IsMade self.old.made donor_end.name }
        requires name { ◌≡◌ donor_end.name requester_end.name }
        requires donor { donor_end.side ≡ Donor }
        requires requester { requester_end.side ≡ Requester }
        ensures to_donor { ReceivedOf (Some (received_by donor_end))
            (Some (sent_by requester_end)) }
        ensures to_requester { ReceivedOf (Some (received_by requester_end))
            (Some (sent_by donor_end)) }
        ensures keeps { (n : CellModel Connection) → IsMade self.old.made n
            → IsMade self.new.made n }
        ensures fewer { self.new.unsettled ≡ self.old.unsettled - 1 }
        ensures planned { self.new.planned ≡ self.old.planned }
        ensures count { self.old.faults ≤ self.new.faults }
        ensures faults { self.new.faults
            ≡ min (self.old.faults + donor_end.faults + requester_end.faults) (2 ^ 64 - 1) }
        ensures same { self.new
            ≡ record self.old { unsettled = self.new.unsettled; faults = self.new.faults } }
    {
        let found = donor_end.faults().saturating_add(requester_end.faults());
        self.faults = self.faults.saturating_add(found);
        self.count_settled();
        donor_end.join(requester_end);
    }

    fn plan_cuts(&mut self, connections: u32)
        ensures planned { self.new.planned ≡ connections }
        ensures keeps { (n : CellModel Connection) → IsMade self.old.made n
            → IsMade self.new.made n }
        ensures unsettled { self.new.unsettled ≡ self.old.unsettled }
        ensures count { self.new.faults ≡ self.old.faults }
        ensures same { self.new ≡ record self.old { planned = connections } }
    {
        self.planned = connections;
    }
}
