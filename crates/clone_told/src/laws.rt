ghost use Rattle.std.specs.Prelude.{◌≡◌, ◌++◌, ◌∷◌, [], ℕ, List, Some};
ghost use Rattle.clone_accepted.specs.Answers.{Item};
ghost use Rattle.clone_calls.specs.declared.answer.DonorAnswer.{DonorAnswer};
ghost use Rattle.clone_calls.specs.declared.call.DonorCall.{DonorCall};
ghost use Rattle.clone_wire.specs.declared.frame.Frame.{Frame};
ghost use Rattle.clone_serve.specs.Stepping.{GivesAll};
ghost use Rattle.clone_serve.specs.Telling.{Exchange, frame_for};
ghost use Rattle.clone_recipient.specs.Receptions.{Reception};
ghost use Rattle.clone_recipient.specs.Record.{items_of};
ghost use Rattle.clone_engine.specs.Acts.{CloneActs};
ghost use Rattle.clone_engine.specs.Donor.{Donor};
ghost use Rattle.clone_sides.specs.Answered.{WereAnswered};
ghost use Rattle.clone_sides.specs.Trace.{Entry, Runs, end_of};
ghost use Rattle.clone_told.specs.Told.{GoesOnBy, IsOf, IsTold, called, gives};

/// Where a donor answers a call at the end of its run, the run goes on by that, and what the frame
/// says that tells the answer was answered, to the session that the frame names. It stays so, and
/// what a recipient takes of such a frame joins what was answered.
pub fn told_laws()
    ensures tells { (number : ℕ) (d : Donor) (trace : List Entry) (asked : DonorCall)
        (given : DonorAnswer) (t : Donor) (sent : Frame) → Runs d trace
        → CloneActs asked given (end_of d trace) t → frame_for asked given ≡ Some sent
        → IsOf number sent → Runs d (trace ++ called asked given t ∷ [])
        × IsTold number (trace ++ called asked given t ∷ []) sent }
    ensures all { (number : ℕ) (d : Donor) (trace : List Entry) (exchanges : List Exchange)
        (t : Donor) → Runs d trace → GivesAll gives (end_of d trace) exchanges t
        → GoesOnBy number d trace exchanges t }
    ensures still { (number : ℕ) (trace : List Entry) (e : Entry) (sent : Frame)
        → IsTold number trace sent → IsTold number (trace ++ e ∷ []) sent }
    ensures taken { (number : ℕ) (trace : List Entry) (r : Reception) (task : ℕ) (sent : Frame)
        (items : List Item) → WereAnswered number trace items → IsTold number trace sent
        → WereAnswered number trace (items ++ items_of r task sent) }
{}
