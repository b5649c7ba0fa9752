//! What a hub knows of the calls that were made by the seats that came back to it.
ghost use Rattle.std.specs.Prelude.{◌≡◌, ◌∷◌, ◌++◌, [], List};
ghost use Rattle.clone_turn.specs.declared.view.Entry.{Entry};
ghost use Rattle.clone_turn.specs.Parts.{IsMadeOf};
ghost use Rattle.clone_turn.specs.Runs.{IsLegalRun, calls, end_of};
ghost use Rattle.clone_turn.specs.Seats.{CellModel, ClosesAt, SeatModel, first_seat};
ghost use Rattle.clone_turn.specs.Worked.{Makes};
ghost use Rattle.clone_runs.specs.Shuffles.{IsShuffled};
ghost use Rattle.clone_hub.specs.Gathering.{Gathers, HubModel, IsLent, IsTaken};

use clone_turn::Machine;

/// A hub gathers nothing while nothing is done; its own calls; what a seat did that was lent and
/// comes back, and what was gathered meanwhile; and what it gathers first and then. Where it had the
/// whole share at first, and closes the cell, the run is shuffled from all that it has gathered.
pub fn gather_laws<M: Machine>()
    ensures none { (h : HubModel M.State M.Call M.Answer) → Gathers [] h h }
    ensures own { (h g : HubModel M.State M.Call M.Answer)
        (made : List (Entry M.State M.Call M.Answer)) → g.cell ≡ h.cell
        → Makes h.seat made g.seat → Gathers (made ∷ []) h g }
    ensures one { (h g k t : HubModel M.State M.Call M.Answer) (c : CellModel M.State)
        (r e : SeatModel M.State M.Call M.Answer)
        (parts : List (List (Entry M.State M.Call M.Answer)))
        (made : List (Entry M.State M.Call M.Answer)) → IsLent h c r g → Gathers parts g k
        → Makes r made e → IsTaken k e t → Gathers (parts ++ made ∷ []) h t }
    ensures more { (h g k : HubModel M.State M.Call M.Answer)
        (xs ys : List (List (Entry M.State M.Call M.Answer))) → Gathers xs h g → Gathers ys g k
        → Gathers (xs ++ ys) h k }
    ensures run { (h g : HubModel M.State M.Call M.Answer)
        (parts : List (List (Entry M.State M.Call M.Answer))) (state : M.State)
        → h.seat ≡ first_seat h.cell → Gathers parts h g
        → ClosesAt M.steps h.cell.first g.seat state
        → IsLegalRun M.steps h.cell.first (calls g.seat.seen)
        × (state ≡ end_of h.cell.first (calls g.seat.seen))
        × IsShuffled parts (calls g.seat.seen) }
{}

/// A list that is shuffled from parts is made of them.
pub fn made_laws<X>()
    ensures { (parts : List (List X)) (run : List X) → IsShuffled parts run
        → IsMadeOf parts run }
{}
