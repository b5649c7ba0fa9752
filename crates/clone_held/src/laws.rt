ghost use Rattle.std.specs.Prelude.{◌≡◌, ◌<◌, ◌^◌, ℕ, List, None, Some, false};
ghost use Rattle.clone_outside.specs.DiskCalls.{DiskState};
ghost use Rattle.clone_turn.specs.Runs.{IsLegalRun, end_of};
ghost use Rattle.clone_fetching.specs.Recipients.{IsToldOf, RecipientModel, RecipientSteps};
ghost use Rattle.clone_fetching.specs.declared.clone_ended.CloneEnded.TheVariants.{Complete};
ghost use Rattle.clone_copying.specs.Calls.{RecipientEntry};
ghost use Rattle.clone_engine.specs.Donor.{Donor};
ghost use Rattle.clone_sides.specs.Answered.{IsOpenedOnce};
ghost use Rattle.clone_sides.specs.Trace.{Entry, Runs};
ghost use Rattle.clone_joined.specs.Runs.{IsFresh};
ghost use Rattle.clone_held.specs.Held.{AcknowledgedWith, AreHeard, HasAccepted, HasBegun};
ghost use Rattle.clone_held.specs.Held.{IsHeldAt};

/// A recipient begins on a disk that was blank, and its tasks make their steps in any order. Where
/// each frame that they took was told in the donor's run, all that the recipient accepted was
/// answered there, while the clone goes on.
pub fn accepted_laws<R>()
    ensures { (state : R → DiskState) (number : ℕ) (trace : List Entry)
        (first : RecipientModel R) (run : List (RecipientEntry R)) → HasBegun state number first
        → IsLegalRun (RecipientSteps state) first run → AreHeard number trace run
        → (end_of first run).given_up ≡ false
        → (end_of first run).reception.table.ended ≡ None
        → HasAccepted number trace (end_of first run).reception
        (state (end_of first run).disk).told }
{}

/// Where such a run ends with a clone of which it is told that it is complete, the recipient's disk
/// says so too, and recovers to the donor's history at the session's first stop. No copy of pages
/// was acknowledged with another floor than the one that is told, and the stop isn't before that.
pub fn held_laws<R>()
    ensures { (state : R → DiskState) (number lsn position floor : ℕ) (d : Donor)
        (trace : List Entry) (first : RecipientModel R) (run : List (RecipientEntry R))
        → number < 2 ^ 64 → IsFresh number d → Runs d trace → IsOpenedOnce number trace
        → AcknowledgedWith number floor trace → HasBegun state number first
        → IsLegalRun (RecipientSteps state) first run → AreHeard number trace run
        → IsToldOf (end_of first run).reception.table (Some (Complete lsn position floor))
        → IsHeldAt number d trace lsn position floor (state (end_of first run).disk).told }
{}
