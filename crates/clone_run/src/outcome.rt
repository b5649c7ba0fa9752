ghost use Rattle.std.specs.Prelude.{◌≡◌};
ghost use Rattle.clone_run.specs.Outcomes.{completed, of_none, of_unstarted, with_job, with_task};

use crate::failure::Failure;
use clone_copying::FetchEnd;
use clone_fetching::CloneEnded;

/// How a clone was completed: the LSN, how many commits it has, and the position that was looked up
/// before PAGE COPY was first acknowledged.
#[derive(Clone, Copy, Debug, PartialEq, Eq)]
pub struct Cloned {
    pub lsn: u64,
    pub position: u64,
    pub floor: u64,
}

/// What came of some jobs: how they found the clone completed, the failure that counts, and whether
/// all seats came back.
#[derive(Drop)]
pub struct Outcome {
    /// How a task found the clone completed, if the last one did.
    pub cloned: Option<Cloned>,
    /// The failure that counts, if there was one.
    pub failure: Option<Failure>,
    /// Whether each job was started, so that its seats came back.
    pub whole: bool,
}

impl Outcome {
    /// That of no job.
    pub(crate) fn of_none() -> Outcome
        ensures { result ≡ of_none }
    {
        Outcome {
            cloned: None,
            failure: None,
            whole: true,
        }
    }

    /// A job wasn't started, and its seats are gone.
    pub(crate) fn of_unstarted(failure: Failure) -> Outcome
        ensures { result ≡ of_unstarted failure }
    {
        Outcome {
            cloned: None,
            failure: Some(failure),
            whole: false,
        }
    }

    /// With what came of one job more.
    pub(crate) fn with(self, failure: Option<Failure>) -> Outcome
        ensures { result ≡ with_job self failure }
    {
        Outcome {
            cloned: self.cloned,
            failure: Failure::first_of(self.failure, failure),
            whole: self.whole,
        }
    }

    /// With how a task ended.
    pub(crate) fn with_task(self, end: FetchEnd) -> Outcome
        ensures { result ≡ with_task self end }
    {
        let cloned = completed(&end);
        Outcome {
            cloned,
            failure: Failure::first_of(self.failure, Failure::of_fetch(end)),
            whole: self.whole,
        }
    }
}

// How the clone was completed, if a task ended with that.
fn completed(end: &FetchEnd) -> Option<Cloned>
    ensures { result ≡ completed end.now }
{
    match end {
        FetchEnd::Ended(
            CloneEnded::Complete {
                lsn,
                position,
                floor,
            },
        ) => Some(Cloned {
            lsn: *lsn,
            position: *position,
            floor: *floor,
        }),
        _ => None,
    }
}
