ghost use Rattle.std.specs.Prelude.{◌≡◌, ◌++◌, ◌∷◌, [], ℕ, List, Contains, IsSome, None, Some};
ghost use Rattle.std.specs.FinMap as finite;
ghost use Rattle.std.specs.Option.{option_or};
ghost use Rattle.clone_outside.specs.Disk.{DiskImage};
ghost use Rattle.clone_outside.specs.Mark.{IsEnd};
ghost use Rattle.clone_outside.specs.declared.mark.CloneEnd.{CloneEnd};
ghost use Rattle.clone_accepted.specs.Answers.{Item, Moves, ToldRedo, answer_in};
ghost use Rattle.clone_accepted.specs.Disk.{laid};
ghost use Rattle.clone_accepted.specs.Turns.{InTurn};
ghost use Rattle.clone_accepted.specs.Whole.{IsWhole};
ghost use Rattle.clone_session.specs.declared.info.Stop.{Stop};
ghost use Rattle.clone_engine.specs.Acts.{Acts};
ghost use Rattle.clone_engine.specs.Donor.{Donor, IsDonor};
ghost use Rattle.clone_engine.specs.Engine.{Engine};
ghost use Rattle.clone_engine.specs.Taken.{IsTaken, nothing};
ghost use Rattle.clone_sides.specs.Trace.{Entry, Runs, end_of};
ghost use Rattle.clone_sides.specs.Answered.{IsOpenedOnce, Open, Phase, Unopened, WereAnswered};
ghost use Rattle.clone_sides.specs.Answered.{answered_by, answers, phase_after, phase_with};
ghost use Rattle.clone_sides.specs.Moment.{HasGoneOn, HoldsStop, StopsAt, first_stop, own_stop};

/// A donor's whole run, in which the session was opened once, and what a recipient accepted, in its
/// turn and whole, each of it an answer that the donor gave to the session in that run: then the
/// recipient's disk, laid of that over a disk without spaces, recovers to the donor's history at
/// the stop. Each stop that a session comes to first is such a moment, and the donor's history goes
/// on from there. While the session is open it is the donor's last stop. The position that was told
/// of the copy of redo is that of the first stop, whatever the donor's disk tells.
pub fn sides_laws()
    ensures moment { (number : ℕ) (d : Donor) (trace : List Entry) (items : List Item)
        (end : CloneEnd) (m : DiskImage) → IsTaken d nothing → d.cloning.session ≡ None
        → own_stop number d.cloning.stop ≡ None → IsDonor d → IsSome d.engine.disk.told
        → Runs d trace → IsOpenedOnce number trace → InTurn 0 items
        → WereAnswered number trace items → IsWhole items end.checkpoint end.lsn end.position
        → IsEnd end → m.spaces ≡ finite.empty → HoldsStop number d trace end (laid items m) }
    ensures stops { (number : ℕ) (d : Donor) (trace : List Entry) (stop : Stop)
        → own_stop number d.cloning.stop ≡ None → Runs d trace
        → first_stop number trace ≡ Some stop → (at : Engine) × StopsAt number d trace at stop }
    ensures gone_on { (number : ℕ) (d : Donor) (trace : List Entry) (at : Engine) (stop : Stop)
        → Runs d trace → StopsAt number d trace at stop
        → HasGoneOn stop at.donor (end_of d trace).engine.donor }
    ensures numbers { (number : ℕ) (d : Donor) (trace : List Entry) (items : List Item)
        (checkpoint lsn position : ℕ) → d.cloning.session ≡ None
        → own_stop number d.cloning.stop ≡ None → Runs d trace → IsOpenedOnce number trace
        → WereAnswered number trace items
        → Contains items (Moves (ToldRedo checkpoint lsn position))
        → (stop : Stop) × (first_stop number trace ≡ Some stop) × (stop.position ≡ position) }
    ensures stands { (number : ℕ) (d : Donor) (trace : List Entry) → d.cloning.session ≡ None
        → own_stop number d.cloning.stop ≡ None → Runs d trace
        → phase_after number Unopened trace ≡ Open
        → first_stop number trace ≡ own_stop number (end_of d trace).cloning.stop }
{}

/// A run that goes on by one act, and one more item that was accepted. What was answered stays so.
pub fn step_laws()
    ensures runs { (d : Donor) (trace : List Entry) (e : Entry) → Runs d trace
        → Acts e.act (end_of d trace) e.after → Runs d (trace ++ e ∷ []) }
    ensures reaches { (d : Donor) (trace : List Entry) (e : Entry)
        → end_of d (trace ++ e ∷ []) ≡ e.after }
    ensures answers { (number : ℕ) (trace : List Entry) (e : Entry)
        → answers number (trace ++ e ∷ []) ≡ answers number trace ++ answered_by number e.act }
    ensures phase { (number : ℕ) (phase : Phase) (trace : List Entry) (e : Entry)
        → phase_after number phase (trace ++ e ∷ [])
        ≡ phase_with number (phase_after number phase trace) e.act }
    ensures stop { (number : ℕ) (trace : List Entry) (e : Entry)
        → first_stop number (trace ++ e ∷ [])
        ≡ option_or (first_stop number trace) (own_stop number e.after.cloning.stop) }
    ensures still { (number : ℕ) (trace : List Entry) (e : Entry) (items : List Item)
        → WereAnswered number trace items → WereAnswered number (trace ++ e ∷ []) items }
    ensures too { (number : ℕ) (trace : List Entry) (items : List Item) (item : Item)
        → WereAnswered number trace items → Contains (answers number trace) (answer_in item)
        → WereAnswered number trace (items ++ item ∷ []) }
{}
