//! What writers have committed when their calls stand among those of others.
ghost use Rattle.std.specs.Prelude.{◌≡◌, ℕ, List, map, None};
ghost use Rattle.std.specs.List.{AllByRecursion};
ghost use Rattle.clone_turn.specs.Runs.{end_of};
ghost use Rattle.clone_runs.specs.Shuffles.{IsShuffled};
ghost use Rattle.clone_machine.specs.Running.{JobEntry};
ghost use Rattle.clone_machine.specs.Sharing.{SharedDonor};
ghost use Rattle.clone_writer.specs.Writers.{Writer, asked};
ghost use Rattle.clone_writer.specs.declared.writer.Place.{Place};
ghost use Rattle.clone_jobs.specs.Said.{Said, said_in};
ghost use Rattle.clone_jobs.specs.Upkeep.{IsUpkeep};
ghost use Rattle.clone_jobs.specs.Writing.{Writes};
ghost use Rattle.clone_jobs.specs.Written.{AllMove, AreApart, Begins, Ends, Follows, IsPart, Other, Part, Written, made_by, plain};
ghost use Rattle.clone_jobs.specs.declared.ending.Ending.{Ending};
ghost use Rattle.clone_jobs.specs.declared.ending.Ending.TheVariants.{Done};
ghost use Rattle.clone_jobs.specs.declared.upkeep.Upkeep.{Upkeep};

/// The calls of a writer's job are those of a writer, which has come further in the same stream. A
/// job that is done has no call left to make.
pub fn writer_laws()
    ensures part { (end : Ending) (w v : Writer) (made : List JobEntry)
        → Writes end w (said_in made) v → IsPart (Written w v made) }
    ensures stream { (end : Ending) (w v : Writer) (said : List Said) → Writes end w said v
        → (index : ℕ) × (place : Place) × (v ≡ record w { index = index; place = place }) }
    ensures done { (w v : Writer) (said : List Said) → Writes Done w said v → asked v ≡ None }
{}

/// The calls of a flusher, a checkpointer and an archiver touch no transaction.
pub fn upkeep_laws()
    ensures { (work : Upkeep) (end : Ending) (made : List JobEntry)
        → IsUpkeep work end (said_in made) → IsPart (Other made) }
{}

/// In a run that is shuffled from the calls of seats, however they stand among each other, each
/// writer that agreed with the donor before agrees with it in the end: what it has committed is its
/// stream, up to where it has come.
pub fn written_laws()
    ensures { (first : SharedDonor) (run : List JobEntry) (parts : List Part)
        → AllMove first run → IsShuffled (map made_by parts) run → AllByRecursion IsPart parts
        → AreApart parts → AllByRecursion (Begins (plain first)) parts
        → AllByRecursion (Ends (plain (end_of first run))) parts }
{}
