//! Laws of the seats of a cell: what each of them did, what share they have, and what the seat
//! knows that joined them all.
ghost use Rattle.std.specs.Prelude.{◌≡◌, ◌∷◌, ◌++◌, [], List, IsPermutation};
ghost use Rattle.clone_turn.specs.declared.view.Entry.{Entry};
ghost use Rattle.clone_turn.specs.Runs.{Agree, IsLegalRun, calls, end_of};
ghost use Rattle.clone_turn.specs.Seats.{CellModel, ClosesAt, HasWhole, IsOf, MakesCall, SeatModel};
ghost use Rattle.clone_turn.specs.Seats.{first_seat, joined_seat, left_seat, right_seat};
ghost use Rattle.clone_turn.specs.Parts.{IsMadeOf};
ghost use Rattle.clone_turn.specs.Worked.{HaveWorked, Makes};
ghost use Rattle.clone_turn.specs.Shares.{ShareAll};
ghost use Rattle.clone_turn.specs.Joined.{Joins, parts_of};

use crate::machine::Machine;

/// What a seat did since an earlier moment: nothing yet, one call, which is a step of the machine,
/// or what it did first and what it did then. A seat that was split off has made no call, so all
/// of its calls are what it did since.
pub fn worked_laws<M: Machine>()
    ensures none { (v : SeatModel M.State M.Call M.Answer) → Makes v [] v }
    ensures one { (first : M.State) (v w : SeatModel M.State M.Call M.Answer) (call : M.Call)
        (answer : M.Answer) → MakesCall M.steps first v call answer w
        → (e : Entry M.State M.Call M.Answer) × Makes v (e ∷ []) w
        × ((s : M.State) × (e.call ≡ call) × (e.answer ≡ answer)
        × M.steps s call answer e.after) }
    ensures more { (u v w : SeatModel M.State M.Call M.Answer)
        (xs ys : List (Entry M.State M.Call M.Answer)) → Makes u xs v → Makes v ys w
        → Makes u (xs ++ ys) w }
    ensures cell { (c : CellModel M.State) (v w : SeatModel M.State M.Call M.Answer)
        (made : List (Entry M.State M.Call M.Answer)) → Makes v made w → IsOf c v → IsOf c w }
    ensures calls { (v w : SeatModel M.State M.Call M.Answer)
        (made : List (Entry M.State M.Call M.Answer)) → Makes v made w
        → calls w.seen ≡ calls v.seen ++ made }
    ensures new { (v r w : SeatModel M.State M.Call M.Answer)
        (made : List (Entry M.State M.Call M.Answer)) → r ≡ right_seat v → Makes r made w
        → calls w.seen ≡ made }
{}

/// The shares of the seats of a cell add up to the whole, however they are split and joined and
/// whatever calls they make. Where one seat is left it has the whole share.
pub fn share_laws<S, C, A>()
    ensures first { (c : CellModel S) (v : SeatModel S C A) → v ≡ first_seat c
        → ShareAll (v ∷ []) }
    ensures split { (v l r : SeatModel S C A) (vs : List (SeatModel S C A)) → l ≡ left_seat v
        → r ≡ right_seat v → ShareAll (v ∷ vs) → ShareAll (l ∷ r ∷ vs) }
    ensures moved { (vs ws : List (SeatModel S C A)) → IsPermutation vs ws → ShareAll vs
        → ShareAll ws }
    ensures worked { (vs ws : List (SeatModel S C A)) → HaveWorked vs ws → ShareAll vs
        → ShareAll ws }
    ensures joined { (v w u : SeatModel S C A) (vs : List (SeatModel S C A))
        → u ≡ joined_seat v w → ShareAll (v ∷ w ∷ vs) → ShareAll (u ∷ vs) }
    ensures whole { (v : SeatModel S C A) → ShareAll (v ∷ []) → HasWhole v }
{}

/// The seat that others were joined to, one after the other, has the calls of all of them, each
/// once, and those of each in their order. Where they had the whole share between them, and that
/// seat closes the cell, perhaps after some last calls, these are the run.
pub fn close_laws<M: Machine>()
    ensures more { (v t w u : SeatModel M.State M.Call M.Answer)
        (ws : List (SeatModel M.State M.Call M.Answer)) → Joins v ws t → Agree t.seen w.seen
        → u ≡ joined_seat t w → Joins v (ws ++ w ∷ []) u }
    ensures calls { (v t : SeatModel M.State M.Call M.Answer)
        (ws : List (SeatModel M.State M.Call M.Answer)) → Joins v ws t
        → IsMadeOf (parts_of (v ∷ ws)) (calls t.seen) }
    ensures run { (v t u : SeatModel M.State M.Call M.Answer)
        (ws : List (SeatModel M.State M.Call M.Answer))
        (last : List (Entry M.State M.Call M.Answer)) (first state : M.State) → Joins v ws t
        → ShareAll (v ∷ ws) → Makes t last u → ClosesAt M.steps first u state
        → IsLegalRun M.steps first (calls t.seen ++ last)
        × (state ≡ end_of first (calls t.seen ++ last)) }
{}
