ghost use Rattle.std.specs.Prelude.{◌≡◌, ◌≢◌, ◌<◌, ◌^◌, ℕ, List, Contains, Some, flat_map};
ghost use Rattle.std.specs.List.{AllByRecursion};
ghost use Rattle.std.specs.declared.option.Option.{Option};
ghost use Rattle.clone_outside.specs.DiskCalls.{DiskState};
ghost use Rattle.clone_turn.specs.Runs.{IsLegalRun, end_of};
ghost use Rattle.clone_turn.specs.Seats.{SeatModel};
ghost use Rattle.clone_runs.specs.Keeping.{Keeps};
ghost use Rattle.clone_runs.specs.Marks.{NoneIn, either};
ghost use Rattle.clone_desk.specs.Steps.{DeskEntry};
ghost use Rattle.clone_chunk.specs.declared.copy_stage.CopyStage.TheVariants.{PageCopy};
ghost use Rattle.clone_wire.specs.Spelling.{spelling};
ghost use Rattle.clone_wire.specs.declared.frame.Frame.TheVariants.{Ack};
ghost use Rattle.clone_fetching.specs.Recipients.{RecipientModel, RecipientSteps};
ghost use Rattle.clone_copying.specs.Calls.{RecipientEntry};
ghost use Rattle.clone_copying.specs.Connecting.{Connects};
ghost use Rattle.clone_copying.specs.Fetching.{Fetches};
ghost use Rattle.clone_copying.specs.Watching.{HasLooked};
ghost use Rattle.clone_reading.specs.Lending.{Lent};
ghost use Rattle.clone_reading.specs.Passing.{TakesTask};
ghost use Rattle.clone_reading.specs.Reading.{is_exit, is_init, puts_in};
ghost use Rattle.clone_taking.specs.Taking.{IsStepOf, has_ended};

use clone_outside::Link;
use clone_runs::settled_laws;
use std::collections::LinkedList;

/// A task that fetches over the connections that the desk lent it: what its steps put out and took,
/// as frames, passed at its ends of these, one connection after the other. Its last steps, which it
/// makes without a connection, take nothing.
pub fn taking_laws<S, C, A, N, L: Link, R>()
    ensures { (state : R → DiskState) (look : C) (position_of : A → Option ℕ)
        (watch : SeatModel S C A) (task : ℕ) (core left : Option ℕ) (ends : List (L × L))
        (asked : List (DeskEntry N L)) (stepped : List (RecipientEntry R))
        → Connects task ends asked
        → Fetches L.Link task (HasLooked look position_of watch) core ends stepped left
        → AllByRecursion (IsStepOf state) stepped
        → (lent : List (Lent L)) × TakesTask L.Link task stepped asked lent }
{
    settled_laws::<LinkedList<u8>, LinkedList<u8>>();
}

/// EXIT is put out only as the clone ends, and then nothing is put out any more.
pub fn keeping_laws<R>()
    ensures { (state : R → DiskState)
        → Keeps (RecipientSteps state) puts_in is_init is_exit has_ended }
{}

/// A task other than task 0 puts out neither INIT nor EXIT.
pub fn others_laws<S, C, A, L: Link, R>()
    ensures { (state : R → DiskState) (look : C) (position_of : A → Option ℕ)
        (watch : SeatModel S C A) (task : ℕ) (core left : Option ℕ) (ends : List (L × L))
        (stepped : List (RecipientEntry R)) → task ≢ 0
        → Fetches L.Link task (HasLooked look position_of watch) core ends stepped left
        → AllByRecursion (IsStepOf state) stepped
        → NoneIn (either is_init is_exit) (flat_map puts_in stepped) }
{}

/// An acknowledgement of the copy of pages that was put out in a run carries the floor that is
/// known at the end, since that of the first one is kept.
pub fn floor_laws<R>()
    ensures { (state : R → DiskState) (first : RecipientModel R)
        (run : List (RecipientEntry R)) (floor : ℕ) → floor < 2 ^ 64
        → IsLegalRun (RecipientSteps state) first run
        → Contains (flat_map puts_in run) (spelling (Ack PageCopy floor))
        → (end_of first run).reception.table.floor ≡ Some floor }
{}
