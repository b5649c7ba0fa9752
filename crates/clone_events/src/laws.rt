ghost use Rattle.std.specs.Prelude.{◌≡◌, ◌≤◌, ◌++◌, Bool, ℕ, List, length};
ghost use Rattle.clone_script.specs.declared.lines.Line.{Line};
ghost use Rattle.clone_plain.specs.Donor.{Donor, no_donor};
ghost use Rattle.clone_events.specs.Events.{Event, PlainEvent};
ghost use Rattle.clone_events.specs.Headline.{AreCommits, AreDrops, AreSets, ShowsStop, all_events};
ghost use Rattle.clone_events.specs.Headline.{FollowsStop, ShowsFollowers};
ghost use Rattle.clone_events.specs.Runs.{Runs};
ghost use Rattle.clone_events.specs.World.{World, IsWithin, no_clone, opened};

/// Each run of the plain donor from the beginning: its binlog has a commit for each position that
/// was answered, that of a `set` with its one change; its drops are those that were answered, and
/// maybe those in which the disk failed; the rows shown are those of the stop, where that is known,
/// and those of a follower are these with the later commits applied in order, each once;
/// each line adds at most one commit, and one transaction of each writer; and whether the disks
/// tell what they hold stays.
pub fn run_laws()
    ensures commits { (lines : List Line) (events : List (List Event)) (t : World Donor)
        → (tasks : ℕ) (tells : Bool)
        → Runs (λ d. d) PlainEvent (opened no_donor tasks tells) lines events t
        → AreCommits (all_events events) t.donor.binlog }
    ensures drops { (lines : List Line) (events : List (List Event)) (t : World Donor)
        → (tasks : ℕ) (tells : Bool)
        → Runs (λ d. d) PlainEvent (opened no_donor tasks tells) lines events t
        → AreDrops 0 (all_events events) t.donor.drops }
    ensures sets { (lines : List Line) (events : List (List Event)) (t : World Donor)
        → (tasks : ℕ) (tells : Bool)
        → Runs (λ d. d) PlainEvent (opened no_donor tasks tells) lines events t
        → AreSets lines events t.donor.binlog }
    ensures stop { (lines : List Line) (events : List (List Event)) (t : World Donor)
        → (tasks : ℕ) (tells : Bool)
        → Runs (λ d. d) PlainEvent (opened no_donor tasks tells) lines events t
        → ShowsStop t.donor tells no_clone (all_events events) }
    ensures followers { (lines : List Line) (events : List (List Event)) (t : World Donor)
        → (tasks : ℕ) (tells : Bool)
        → Runs (λ d. d) PlainEvent (opened no_donor tasks tells) lines events t
        → ShowsFollowers t.donor tells no_clone (all_events events) }
    ensures follows { (lines : List Line) (events : List (List Event)) (t : World Donor)
        → (tasks : ℕ) (tells : Bool)
        → Runs (λ d. d) PlainEvent (opened no_donor tasks tells) lines events t
        → FollowsStop t.donor tells t.clone }
    ensures within { (lines : List Line) (events : List (List Event)) (t : World Donor) (n : ℕ)
        → (tasks : ℕ) (tells : Bool)
        → Runs (λ d. d) PlainEvent (opened no_donor tasks tells) lines events t
        → length lines ≤ n
        → IsWithin (λ d. d) n t }
    ensures tells { (lines : List Line) (events : List (List Event)) (t : World Donor)
        → (tasks : ℕ) (tells : Bool)
        → Runs (λ d. d) PlainEvent (opened no_donor tasks tells) lines events t
        → t.tells ≡ tells }
    ensures tasks { (lines : List Line) (events : List (List Event)) (t : World Donor)
        → (tasks : ℕ) (tells : Bool)
        → Runs (λ d. d) PlainEvent (opened no_donor tasks tells) lines events t
        → t.tasks ≡ tasks }
{}

/// Runs join: what one run leaves, another may start from.
pub fn runs_join()
    ensures { (front back : List Line) (before behind : List (List Event)) (s t u : World Donor)
        → Runs (λ d. d) PlainEvent s front before t
        → Runs (λ d. d) PlainEvent t back behind u
        → Runs (λ d. d) PlainEvent s (front ++ back) (before ++ behind) u }
{}
