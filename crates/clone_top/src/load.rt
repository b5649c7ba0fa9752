//! The command `run`: a donor is opened over one disk, and cloned to the other while writers write to
//! it; then the clone is recovered.
ghost use Rattle.std.specs.Prelude.{◌≡◌, ℕ, option_map};
ghost use Rattle.clone_core.specs.Acting.{stop_of};
ghost use Rattle.clone_model.specs.Config.{IsConfig};
ghost use Rattle.clone_run.specs.Loads.{IsLoad};
ghost use Rattle.clone_words.specs.Commands.{IsInRange};
ghost use Rattle.clone_top.specs.Ends.{End, disks, end_of, ends, means, streams};
ghost use Rattle.clone_top.specs.Main.{RunOutcome};
ghost use Rattle.clone_top.specs.UnderLoad.{LoadOutcome, config_of, load_of};

use crate::concluding::conclude;
use crate::run::{Begun, Left, Unbegun, leave, open_donor};
use crate::saying::{say_no_compression, say_unready};
use clone_loaded::{failure_laws, moment_laws};
use clone_model::{BucketCount, Config};
use clone_outside::{Crew, Gate, Link, Net, PageDisk, Sink};
use clone_run::{Load, RunDisk, RunEnd, RunLink, RunNet, clone_under_load};
use clone_staged::holds_laws;
use clone_words::Run;
use std::alloc::Global;
use std::sync::{Arc, Wait};
use std::thread::Threads;
use std::time::Clock;

/// Clones a donor under load, unless its pages are to be compressed.
pub fn run_or_refuse<
    K: Sink,
    B: Sink,
    T: Threads,
    G: Gate + Send + Sync + Drop + 'static,
    H: Wait + Clock + Copy + Send + Sync + Drop + 'static,
>(
    rt: H,
    alloc: Global,
    run: Run<'_>,
    out: &mut K,
    binlog: &mut B,
    donor: RunDisk,
    recipient: RunDisk,
    net: RunNet<H>,
    crew: &mut Crew<T>,
    gate: Arc<G>,
) -> (Left<RunDisk, RunDisk>, RunNet<H>)
    requires { IsInRange run }
    ensures { (number : ℕ) (source : End) → RunOutcome ⟦<RunNet<H> as Net>⟧
        ⟦<RunLink<H> as Link>⟧ ⟦<RunDisk as PageDisk>⟧.state
        run.entry run.entry.compress result.0.status
        (streams source (end_of (K.taken out.old) (K.failures out.old))
        (end_of (B.taken binlog.old) (B.failures binlog.old)))
        (streams source (end_of (K.taken out.new) (K.failures out.new))
        (end_of (B.taken binlog.new) (B.failures binlog.new)))
        (disks (⟦<RunDisk as PageDisk>⟧.state donor) (⟦<RunDisk as PageDisk>⟧.state recipient))
        (ends number (disks (⟦<RunDisk as PageDisk>⟧.state result.0.donor)
        (⟦<RunDisk as PageDisk>⟧.state result.0.recipient)) result.0.drops.list
        (option_map stop_of result.0.stop))
        (means net crew.old) (means result.1 crew.new) }
{
    if run.compress {
        return (leave(alloc, say_no_compression(out), donor, recipient), net);
    }
    run_load(
        rt, alloc, run, out, binlog, donor, recipient, net, crew, gate,
    )
}

/// Opens a donor, clones it under load, and says what came of that.
fn run_load<
    K: Sink,
    B: Sink,
    T: Threads,
    G: Gate + Send + Sync + Drop + 'static,
    H: Wait + Clock + Copy + Send + Sync + Drop + 'static,
>(
    rt: H,
    alloc: Global,
    run: Run<'_>,
    out: &mut K,
    binlog: &mut B,
    donor: RunDisk,
    recipient: RunDisk,
    net: RunNet<H>,
    crew: &mut Crew<T>,
    gate: Arc<G>,
) -> (Left<RunDisk, RunDisk>, RunNet<H>)
    requires { IsInRange run }
    ensures { (number : ℕ) (source : End) → LoadOutcome ⟦<RunNet<H> as Net>⟧
        ⟦<RunLink<H> as Link>⟧ ⟦<RunDisk as PageDisk>⟧.state run.entry result.0.status
        (streams source (end_of (K.taken out.old) (K.failures out.old))
        (end_of (B.taken binlog.old) (B.failures binlog.old)))
        (streams source (end_of (K.taken out.new) (K.failures out.new))
        (end_of (B.taken binlog.new) (B.failures binlog.new)))
        (disks (⟦<RunDisk as PageDisk>⟧.state donor) (⟦<RunDisk as PageDisk>⟧.state recipient))
        (ends number (disks (⟦<RunDisk as PageDisk>⟧.state result.0.donor)
        (⟦<RunDisk as PageDisk>⟧.state result.0.recipient)) result.0.drops.list
        (option_map stop_of result.0.stop))
        (means net crew.old) (means result.1 crew.new) }
{
    let Begun { donor, recipient } = match open_donor(alloc, config_of(run), donor, recipient) {
        Ok(begun) => begun,
        Err(
            Unbegun {
                why,
                donor,
                recipient,
            },
        ) => return (leave(alloc, say_unready(out, why), donor, recipient), net),
    };
    donor.laws();
    let load = load_of(run);
    let RunEnd {
        outcome,
        donor,
        mut recipient,
        net,
    } = clone_under_load(rt, alloc, crew, gate, load, donor, recipient, net);
    moment_laws::<RunDisk, RunDisk, RunNet<H>>();
    failure_laws::<RunDisk, RunNet<H>>();
    holds_laws();
    let status = conclude(
        alloc,
        run,
        out,
        binlog,
        outcome,
        donor.binlog(),
        &mut recipient,
    );
    let (donor, _drops) = donor.into_disk();
    (leave(alloc, status, donor, recipient), net)
}

/// The sizes that the options ask for.
fn config_of(run: Run<'_>) -> Config
    requires { IsInRange run }
    ensures config { result ≡ config_of run.entry }
    ensures within { IsConfig result }
{
    Config {
        pool: run.pool as u32,
        ring: run.ring,
    }
}

/// The load that the options ask for.
fn load_of(run: Run<'_>) -> Load
    requires { IsInRange run }
    ensures load { result ≡ load_of run.entry }
    ensures within { IsLoad result }
{
    let Some(buckets) = BucketCount::new(run.buckets as u32) else {
        unreachable!()
    };
    Load {
        seed: run.seed,
        writers: run.writers as u32,
        transactions: run.transactions,
        tables: run.tables as u32,
        buckets,
        tasks: run.tasks as u8,
        limit: run.limit as u32,
        cuts: run.cuts as u32,
    }
}
