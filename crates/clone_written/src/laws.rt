ghost use Rattle.std.specs.Prelude.{◌≡◌, ◌<◌, ◌≤◌, ◌==◌, [], ℕ, List, None, count_by, take};
ghost use Rattle.clone_turn.specs.Runs.{IsLegalRun, end_of};
ghost use Rattle.clone_runs.specs.Shuffles.{IsShuffled};
ghost use Rattle.clone_model.specs.declared.change.Commit.{Commit};
ghost use Rattle.clone_plain.specs.Donor as engine;
ghost use Rattle.clone_engine.specs.Donor.{Donor, IsDonor};
ghost use Rattle.clone_engine.specs.Taken.{IsTaken, nothing};
ghost use Rattle.clone_machine.specs.Running.{JobEntry};
ghost use Rattle.clone_machine.specs.Sharing.{SharedDonor, Steps};
ghost use Rattle.clone_jobs.specs.Written.{AllMove, plain};
ghost use Rattle.clone_run.specs.declared.load.Load.{Load};
ghost use Rattle.clone_run.specs.declared.outcome.Outcome.{Outcome};
ghost use Rattle.clone_run.specs.Done.{AreDone, served_from};
ghost use Rattle.clone_run.specs.Tables.{SetsUp};
ghost use Rattle.clone_run.specs.Teams.{Parts};
ghost use Rattle.clone_written.specs.Commits.{HasAllCommits, HasCommits};

use clone_outside::Link;

/// In a legal run of a donor that jobs share, each call of the engine leads its transactions and
/// commits, and each other call leaves them. What holds of every donor holds in the end.
pub fn moves_laws()
    ensures moves { (s : SharedDonor) (run : List JobEntry) → IsLegalRun Steps s run
        → AllMove s run }
    ensures donor { (s : SharedDonor) (run : List JobEntry) → IsDonor s.donor
        → IsLegalRun Steps s run → IsDonor (end_of s run).donor }
{}

/// A donor that is set up has no transaction and no commit more than before, no session if it had
/// none, and the last stop that it had. Where nothing was taken of it, nothing is.
pub fn set_up_laws()
    ensures donor { (d t : Donor) → SetsUp d t → IsDonor d → IsDonor t }
    ensures taken { (d t : Donor) → SetsUp d t → IsTaken d nothing → IsTaken t nothing }
    ensures session { (d t : Donor) → SetsUp d t → d.cloning.session ≡ None
        → t.cloning.session ≡ None }
    ensures stop { (d t : Donor) → SetsUp d t → t.cloning.stop ≡ d.cloning.stop }
    ensures active { (d t : Donor) → SetsUp d t
        → t.engine.donor.active ≡ d.engine.donor.active }
    ensures binlog { (d t : Donor) → SetsUp d t
        → t.engine.donor.binlog ≡ d.engine.donor.binlog }
{}

/// The jobs of a run are done, and the donor, which had no commit before, has a legal run that is
/// shuffled from their calls. Then each writer has committed the first transactions of its stream,
/// no more than it was to, and nobody else has committed anything. Where no failure came of the
/// jobs, each writer has committed all that it was to.
pub fn written_laws<N, L: Link, R>()
    ensures commits { (load : Load) (parts : Parts N L R) (o : Outcome)
        (s : SharedDonor) (run : List JobEntry) → AreDone L.Link load (served_from load 0) parts o
        → IsLegalRun Steps s run → IsShuffled parts.donor run → (plain s).binlog ≡ []
        → HasCommits load (plain (end_of s run)) }
    ensures all { (load : Load) (parts : Parts N L R) (o : Outcome)
        (s : SharedDonor) (run : List JobEntry) → AreDone L.Link load (served_from load 0) parts o
        → IsLegalRun Steps s run → IsShuffled parts.donor run → (plain s).binlog ≡ []
        → o.failure ≡ None → HasAllCommits load (plain (end_of s run)) }
{}

/// A donor that has the first of these commits, however many, has a front of each writer's stream.
pub fn front_laws()
    ensures { (load : Load) (d was : engine.Donor) (n : ℕ) → HasCommits load d
        → take n d.binlog ≡ was.binlog → HasCommits load was }
{}

/// How many commits each writer has.
pub fn count_laws()
    ensures fronts { (load : Load) (d : engine.Donor) (number : ℕ) → HasCommits load d
        → number < load.writers
        → count_by (λ (c : Commit). c.writer == number) d.binlog ≤ load.transactions }
    ensures whole { (load : Load) (d : engine.Donor) (number : ℕ) → HasAllCommits load d
        → number < load.writers
        → count_by (λ (c : Commit). c.writer == number) d.binlog ≡ load.transactions }
{}
