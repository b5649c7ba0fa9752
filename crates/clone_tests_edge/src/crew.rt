ghost use Rattle.std.specs.Prelude.{◌≡◌, ◌+◌, IfOk};

use clone_outside::{Counted, Crew, Gate, Hold, HoldingGate, NoGate, Point, Refusal, Work};
use std::snapshot::Snapshot;
use std::sync::atomic::{AtomicBool, AtomicU64, Ordering};
use std::test::Fail;
use std::thread;
use std::thread::Threads;

// Adds two numbers.
#[derive(Clone, Copy)]
struct Adding {
    one: u8,
    other: u8,
}

impl Work for Adding {
    type End = u16;

    ghost ends = { λ job end. end ≡ job.one + job.other };
}

impl Adding {
    fn run(self) -> u16
        ensures { result ≡ self.one + self.other }
    {
        u16::from(self.one) + u16::from(self.other)
    }
}

fn added<H: Threads>(crew: &mut Crew<H>, job: Adding) -> Result<u16, Refusal>
    ensures { IfOk result (λ n. n ≡ job.one + job.other) }
{
    let about = Snapshot::of(&job);
    let ticket = crew.start(
        about,
        move || -> u16
            ensures { result ≡ job.one + job.other }
        { job.run() },
    )?;
    Ok(crew.finish(ticket))
}

#[test]
fn a_job_gives_its_end(rt: HostRuntime) -> Result<(), Fail> {
    let mut crew = Crew::new(rt);
    let sum = added(
        &mut crew,
        Adding {
            one: 200,
            other: 100,
        },
    )?;
    assert_eq!(rt; sum, 300);
    assert_eq!(rt; crew.faults(), 0);
    Ok(())
}

// Commits until the flag is set.
fn commit_until<G: Gate>(gate: &G, commits: &AtomicU64, ended: &AtomicBool) {
    for _ in 0..u64::MAX {
        if ended.load(Ordering::SeqCst) {
            break;
        }
        commits.fetch_add(1, Ordering::SeqCst);
        gate.pass(Point::Commit(0));
        thread::yield_now();
    }
}

#[test]
fn who_passes_is_held_until_two_later_commits(rt: HostRuntime) -> Result<(), Fail> {
    let hold = Hold {
        at: Point::Block(0),
        until: Point::Commit(0),
        times: 2,
        counted: Counted::Later,
    };
    let gate = HoldingGate::new(rt, rt.alloc(), &[hold], u64::MAX)?;
    let commits = AtomicU64::new(0);
    let ended = AtomicBool::new(false);
    for _ in 0..5 {
        gate.pass(Point::Commit(0));
    }
    let (seen, ()) = thread::join(
        &rt,
        || {
            gate.pass(Point::Block(0));
            ended.store(true, Ordering::SeqCst);
            commits.load(Ordering::SeqCst)
        },
        || commit_until(&gate, &commits, &ended),
    );
    assert!(rt; seen >= 2);
    assert!(rt; !gate.gave_up());
    Ok(())
}

#[test]
fn a_gate_gives_up_after_its_turns(rt: HostRuntime) -> Result<(), Fail> {
    let hold = Hold {
        at: Point::Flusher,
        until: Point::Archiver,
        times: 1,
        counted: Counted::Ever,
    };
    let gate = HoldingGate::new(rt, rt.alloc(), &[hold], 2)?;
    gate.pass(Point::Checkpointer);
    assert!(rt; !gate.gave_up());
    gate.pass(Point::Flusher);
    assert!(rt; gate.gave_up());
    NoGate.pass(Point::Flusher);
    Ok(())
}
