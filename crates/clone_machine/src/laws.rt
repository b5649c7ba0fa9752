ghost use Rattle.std.specs.Prelude.{◌≡◌, ◌++◌, ◌∷◌, List, true};
ghost use Rattle.std.specs.List.{Contains};
ghost use Rattle.clone_turn.specs.Runs.{IsLegalRun, end_of};
ghost use Rattle.clone_calls.specs.declared.answer.DonorAnswer.{DonorAnswer};
ghost use Rattle.clone_calls.specs.declared.call.DonorCall.{DonorCall};
ghost use Rattle.clone_engine.specs.Acts.{Calls};
ghost use Rattle.clone_sides.specs.Trace as sides;
ghost use Rattle.clone_machine.specs.declared.calls.JobAnswer.{JobAnswer};
ghost use Rattle.clone_machine.specs.declared.calls.JobAnswer.TheVariants as answer;
ghost use Rattle.clone_machine.specs.declared.calls.JobCall.{JobCall};
ghost use Rattle.clone_machine.specs.declared.calls.JobCall.TheVariants as call;
ghost use Rattle.clone_machine.specs.Running.{JobEntry, trace_of};
ghost use Rattle.clone_machine.specs.Sharing.{Asks, SharedDonor, Steps};

/// A legal run of the machine is one of its donor: what the calls of the donor did stands in it one
/// after the other, and nothing else. Each call of the donor was answered by one of the donor's
/// answers to it, as the donor of that moment gives it.
pub fn run_laws()
    ensures runs { (first : SharedDonor) (run : List JobEntry) → IsLegalRun Steps first run
        → sides.Runs first.donor (trace_of run) }
    ensures reaches { (first : SharedDonor) (run : List JobEntry) → IsLegalRun Steps first run
        → sides.end_of first.donor (trace_of run) ≡ (end_of first run).donor }
    ensures asks { (first : SharedDonor) (before later : List JobEntry) (e : JobEntry)
        (asked : DonorCall) → IsLegalRun Steps first (before ++ e ∷ later)
        → e.call ≡ call.Donor asked → (given : DonorAnswer) × (e.answer ≡ answer.Donor given)
        × Asks asked given (end_of first before) e.after }
    ensures has { (run : List JobEntry) (e : JobEntry) (asked : DonorCall) (given : DonorAnswer)
        → Contains run e → e.call ≡ call.Donor asked → e.answer ≡ answer.Donor given
        → Contains (trace_of run) (record { act = Calls asked given; after = e.after.donor }) }
{}

/// Once the run is to end, that stays so whatever is called.
pub fn halt_laws()
    ensures { (s : SharedDonor) (asked : JobCall) (given : JobAnswer) (t : SharedDonor)
        → s.halted ≡ true → Steps s asked given t → t.halted ≡ true }
{}
