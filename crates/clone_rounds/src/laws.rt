ghost use Rattle.std.specs.Prelude.{ℕ, suc, ◌≡◌, ◌<◌, ◌⊎◌, List};
ghost use Rattle.clone_rounds.specs.World.{World};
ghost use Rattle.clone_rounds.specs.Idle.{IsStuck};
ghost use Rattle.clone_rounds.specs.Awaiting.{Rule};
ghost use Rattle.clone_rounds.specs.Steps.{IsStart, Move, TaskStep, DonorStep, HasSteps};
ghost use Rattle.clone_rounds.specs.Fitting.{AllFit};
ghost use Rattle.clone_rounds.specs.Ending.{Ends, GoesOn, Run};
ghost use Rattle.clone_rounds.specs.Measure.{AreBelow, IsLess, as_number};
ghost use Rattle.clone_rounds.specs.Measure.{recipient_left, donor_left, left};

/// While a clone hasn't ended, some step isn't idle.
pub fn never_stuck()
    ensures { (w : World) → Rule w → IsStuck w → ⊥ }
{}

/// What an end reads fits: no frame is out of turn, and no command is refused.
pub fn all_fit()
    ensures { (w : World) → Rule w → AllFit w }
{}

/// Where a rule applies, its step is there: nothing that is read keeps an end from it.
pub fn rules_step()
    ensures { (w : World) → Rule w → HasSteps w }
{}

/// The rule holds before the first step, and each step keeps it.
pub fn kept()
    ensures start { (w : World) → IsStart w → Rule w }
    ensures step { (w u : World) → Rule w → Move w u → Rule u }
{}

/// Lists of numbers of which the first counts most are ordered like numbers, where each place has a
/// bound.
pub fn lists_as_numbers()
    ensures { (bounds xs ys : List ℕ) → AreBelow bounds xs → IsLess xs ys
        → as_number bounds xs < as_number bounds ys }
{}

/// A task's step leaves the recipient less to do, and a donor's step leaves the donor less and the
/// recipient as it was, whatever the state is. So no run goes on without end.
pub fn steps_left()
    ensures task { (w u : World) → TaskStep w u → IsLess (recipient_left u) (recipient_left w) }
    ensures donor { (w u : World) → DonorStep w u → IsLess (donor_left u) (donor_left w) }
    ensures same { (w u : World) → DonorStep w u → recipient_left u ≡ recipient_left w }
    ensures each { (w u : World) → TaskStep w u ⊎ DonorStep w u → IsLess (left u) (left w) }
    ensures ends { (run : ℕ → World)
        → ((n : ℕ) → TaskStep (run n) (run (suc n)) ⊎ DonorStep (run n) (run (suc n))) → ⊥ }
{}

/// A clone ends: from each state that keeps the rule some run leads to its completion, or to a loss
/// after as many as it outlasts; and until then some step is there.
pub fn clone_ends()
    ensures goes_on { (w : World) → Rule w → Ends w ⊎ GoesOn w }
    ensures ends { (w : World) → Rule w → (last : World) × Run last w × Ends last }
{}
