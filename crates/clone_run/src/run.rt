//! The run: what it begins with, and what comes back of it.
ghost use Rattle.std.specs.Prelude.{◌≡◌, ◌≤◌, ◌⊎◌, [], true, false, None, Some, IfErr, IfOk, IsSome};
ghost use Rattle.clone_outside.specs.Causes.{Rose};
ghost use Rattle.clone_run.specs.Loads.{IsLoad};
ghost use Rattle.clone_run.specs.Ran.{Begin, GivenUp, HaveRun, Leave, Shared};
ghost use Rattle.clone_run.specs.Closing.{Closes, IsAssembled};
ghost use Rattle.clone_run.specs.Beginning.{IsGivenUp, Unbegun, of_cause};
ghost use Rattle.clone_run.specs.Outcomes.{IsUnstarted, of_unstarted};
ghost use Rattle.clone_run.specs.declared.failure.Failure.TheVariants as failure;
ghost use Rattle.clone_run.specs.declared.run.TheConstants.{SESSION, VERSION};

use crate::failure::Failure;
use crate::kinds::{RunDisk, RunLink, RunNet};
use crate::load::Load;
use crate::outcome::Outcome;
use crate::running::serve_from;
use crate::tables::make_tables;
use crate::team::Team;
use clone_desk::{Desk, DeskMachine};
use clone_donor::Donor;
use clone_fetching::{Recipient, RecipientMachine};
use clone_hub::Hub;
use clone_machine::{DonorMachine, SharedDonor};
use clone_outside::{Crew, Gate, Link, Net, PageDisk};
use clone_recipient::{BeginCause, Reception};
use std::alloc::Global;
use std::sync::{Arc, Wait};
use std::thread::Threads;
use std::time::Clock;

/// The number of the clone's session.
pub const SESSION: u64 = 1;

/// The version of its frames.
pub const VERSION: u16 = 2;

/// How a run ended, and what comes back of it.
pub struct RunEnd<D: PageDisk, R: PageDisk, N> {
    /// What came of the jobs.
    pub outcome: Outcome,
    /// The donor, which was asked to give up a session that was still there.
    pub donor: Donor<D>,
    /// The recipient's disk.
    pub recipient: R,
    /// The net, in which each connection is settled both of whose ends came back.
    pub net: N,
}

/// Clones the donor to the disk of a recipient while writers write to it, each job in a thread of
/// its own.
///
/// Where each job was started, contracts say what they did by their calls. Where one wasn't, there
/// was no memory or no thread, or the donor's tables or the recipient's copy were not begun.
pub fn clone_under_load<
    T: Threads,
    G: Gate + Send + Sync + Drop + 'static,
    H: Wait + Clock + Copy + Send + Sync + Drop + 'static,
>(
    rt: H,
    alloc: Global,
    crew: &mut Crew<T>,
    gate: Arc<G>,
    load: Load,
    donor: Donor<RunDisk>,
    recipient: RunDisk,
    net: RunNet<H>,
) -> RunEnd<RunDisk, RunDisk, RunNet<H>>
    requires { IsLoad load }
    ensures ran { result.outcome.whole ≡ true → (s : Shared _ _ _) × (t : Shared _ _ _)
        × Begin ⟦<RunNet<H> as Net>⟧ ⟦<RunLink<H> as Link>⟧ ⟦<RunDisk as PageDisk>⟧.state
        SESSION VERSION load donor (⟦<RunDisk as PageDisk>⟧.state recipient) net s
        × HaveRun ⟦<RunNet<H> as Net>⟧ ⟦<RunLink<H> as Link>⟧ ⟦<RunDisk as PageDisk>⟧.state
        load result.outcome s t
        × Leave ⟦<RunNet<H> as Net>⟧ ⟦<RunLink<H> as Link>⟧ ⟦<RunDisk as PageDisk>⟧.state
        t result.donor result.recipient result.net }
    ensures unstarted { result.outcome.whole ≡ false
        → IsUnstarted result.outcome.failure
        ⊎ Unbegun result.outcome.failure donor result.donor
        (⟦<RunDisk as PageDisk>⟧.state recipient) (⟦<RunDisk as PageDisk>⟧.state result.recipient) }
    ensures cloned { result.outcome.failure ≡ None → IsSome result.outcome.cloned }
    ensures thread { result.outcome.failure ≡ Some failure.Thread → Rose crew.old crew.new }
    ensures count { crew.old ≤ crew.new }
{
    match begin(rt, alloc, gate, load, donor, recipient, net) {
        Ok(mut team) => {
            let outcome = serve_from(&mut team, crew, 0);
            take_apart(team, outcome)
        }
        Err(end) => end,
    }
}

/// Makes the tables, begins a clone on the disk, and assembles what the jobs share.
fn begin<
    D: PageDisk + Send + Drop,
    R: PageDisk + Send + Drop,
    N: Net + Send + Drop,
    G: Gate + Drop,
    H: Wait + Clock + Copy + Drop,
>(
    rt: H,
    alloc: Global,
    gate: Arc<G>,
    load: Load,
    donor: Donor<D>,
    recipient: R,
    net: N,
) -> Result<Team<D, R, N, G, H>, RunEnd<D, R, N>>
where
    N::End: Send + Drop,
    requires { IsLoad load }
    ensures begun { IfOk result (λ team. (s : Shared N N.End R)
        × Begin N.Net N.End.Link R.state SESSION VERSION load donor
        (R.state recipient) net s
        × IsAssembled load s team) }
    ensures unbegun { IfErr result (λ end. IsGivenUp end.outcome donor end.donor
        (R.state recipient) (R.state end.recipient)) }
{
    let mut donor = donor;
    let mut recipient = recipient;
    let mut net = net;
    if let Err(failure) = make_tables(&rt, &mut donor, load.tables, load.buckets) {
        return Err(given_up(failure, donor, recipient, net));
    }
    let begun = Reception::begin(
        alloc,
        &mut recipient,
        SESSION,
        load.tasks,
        load.limit,
        VERSION,
    );
    let reception = match begun {
        Ok(reception) => reception,
        Err(cause) => return Err(given_up(unbegun(cause), donor, recipient, net)),
    };
    net.plan_cuts(load.cuts);
    let recipient = Recipient::new(alloc, reception, recipient);
    assemble(rt, alloc, gate, load, donor, recipient, net)
}

fn unbegun(cause: BeginCause) -> Failure
    ensures { result ≡ of_cause cause }
{
    match cause {
        BeginCause::NotEmpty => Failure::NotEmpty,
        BeginCause::DiskFault => Failure::RecipientDisk,
        BeginCause::NoMemory => Failure::Memory,
    }
}

/// Puts donor, recipient and net where jobs share them.
fn assemble<
    D: PageDisk + Send + Drop,
    R: PageDisk + Send + Drop,
    N: Net + Send + Drop,
    G: Gate + Drop,
    H: Wait + Clock + Copy + Drop,
>(
    rt: H,
    alloc: Global,
    gate: Arc<G>,
    load: Load,
    donor: Donor<D>,
    recipient: Recipient<R>,
    net: N,
) -> Result<Team<D, R, N, G, H>, RunEnd<D, R, N>>
where
    N::End: Send + Drop,
    ensures assembled { IfOk result (λ team. IsAssembled load
        (record {
          donor = record { donor = donor; halted = false };
          recipient = recipient;
          desk = record { net = net; records = [] };
        }) team) }
    ensures unbegun { IfErr result (λ end. end.outcome ≡ of_unstarted failure.Memory) }
{
    let donor = match Hub::<DonorMachine<D>>::new(&rt, alloc, SharedDonor::new(alloc, donor)) {
        Ok(donor) => donor,
        Err(donor) => {
            let (_reception, recipient) = recipient.into_parts();
            return Err(given_up(Failure::Memory, donor.into_donor(), recipient, net));
        }
    };
    let recipient = match Hub::<RecipientMachine<R>>::new(&rt, alloc, recipient) {
        Ok(recipient) => recipient,
        Err(recipient) => {
            let (_reception, recipient) = recipient.into_parts();
            let donor = donor.close(&rt).into_donor();
            return Err(given_up(Failure::Memory, donor, recipient, net));
        }
    };
    let desk = match Hub::<DeskMachine<N>>::new(&rt, alloc, Desk::new(alloc, net)) {
        Ok(desk) => desk,
        Err(desk) => {
            let (_reception, recipient) = recipient.close(&rt).into_parts();
            let donor = donor.close(&rt).into_donor();
            return Err(given_up(Failure::Memory, donor, recipient, desk.settle()));
        }
    };
    Ok(Team {
        rt,
        alloc,
        gate,
        load,
        donor,
        recipient,
        desk,
    })
}

/// Closes the cells, gives the session up if it stands, and settles the connections.
fn take_apart<
    D: PageDisk + Send + Drop,
    R: PageDisk + Send + Drop,
    N: Net + Send + Drop,
    G: Gate + Drop,
    H: Wait + Clock + Copy + Drop,
>(team: Team<D, R, N, G, H>, outcome: Outcome) -> RunEnd<D, R, N>
where
    N::End: Send + Drop,
    ensures outcome { result.outcome ≡ outcome }
    ensures left { (t : Shared N N.End R) × Closes N.Net N.End.Link R.state team t
        × Leave N.Net N.End.Link R.state t result.donor result.recipient result.net }
{
    let Team {
        rt,
        alloc: _,
        gate: _,
        load: _,
        donor,
        recipient,
        desk,
    } = team;
    let donor = without_session(donor.close(&rt).into_donor());
    let (_reception, recipient) = recipient.close(&rt).into_parts();
    RunEnd {
        outcome,
        donor,
        recipient,
        net: desk.close(&rt).settle(),
    }
}

/// Gives the session up that stands, if one does.
fn without_session<D: PageDisk>(donor: Donor<D>) -> Donor<D>
    ensures { GivenUp donor.cloning.session donor result }
{
    let mut donor = donor;
    if let Some(session) = donor.session() {
        let _gone = donor.abandon(session);
    }
    donor
}

/// A run that doesn't begin.
fn given_up<D: PageDisk, R: PageDisk, N>(
    failure: Failure,
    donor: Donor<D>,
    recipient: R,
    net: N,
) -> RunEnd<D, R, N>
    ensures outcome { result.outcome ≡ of_unstarted failure }
    ensures donor { result.donor ≡ donor }
    ensures recipient { result.recipient ≡ recipient }
{
    RunEnd {
        outcome: Outcome::of_unstarted(failure),
        donor,
        recipient,
        net,
    }
}
