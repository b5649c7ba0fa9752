ghost use Rattle.std.specs.Prelude.{◌≡◌, ◌++◌, ◌∷◌, [], Bool, Contains, List, true, false, flat_map, ℕ};
ghost use Rattle.std.specs.List.{AllByRecursion};
ghost use Rattle.std.specs.declared.option.Option.{Option};
ghost use Rattle.clone_outside.specs.Bytes.{TakesSome, appended};
ghost use Rattle.clone_outside.specs.Link.{IsUnused};
ghost use Rattle.clone_turn.specs.declared.view.Entry.{Entry};
ghost use Rattle.clone_turn.specs.Runs.{IsLegalRun, calls, end_of};
ghost use Rattle.clone_turn.specs.Seats.{ClosesAt, SeatModel};
ghost use Rattle.clone_turn.specs.Parts.{IsMadeOf, IsSublist};
ghost use Rattle.clone_turn.specs.Worked.{Makes};
ghost use Rattle.clone_turn.specs.Shares.{ShareAll};
ghost use Rattle.clone_turn.specs.Joined.{Joins, parts_of};
ghost use Rattle.clone_runs.specs.Marks.{Ascends, NoneAfter, NoneIn, either};
ghost use Rattle.clone_runs.specs.Phases.{IsOpenedOnce};
ghost use Rattle.clone_runs.specs.Keeping.{Keeps};
ghost use Rattle.clone_runs.specs.Spellings.{spellings};
ghost use Rattle.clone_runs.specs.Ends.{AreEnds, EndBytes, IsSettled, Passed, WereSent, WereTaken};
ghost use Rattle.clone_runs.specs.Connections.{AreInOrder, AreMatched, AreOf, WasServed, commands_of};
ghost use Rattle.clone_runs.specs.Connections.{place_of};
ghost use Rattle.clone_runs.specs.Desk.{DeskAct, DeskRuns, handed, itself, paired};
ghost use Rattle.clone_runs.specs.Carried.{Carried};
ghost use Rattle.clone_runs.specs.Shuffles.{IsShuffled};
ghost use Rattle.clone_runs.specs.Clones.{IsFetchedBy, IsFirst, IsServedBy, IsTask, Reading, Task};
ghost use Rattle.clone_runs.specs.Clones.{answered_of, stepped_of};

use clone_turn::Machine;

/// A clone by several tasks, whose runs are made of the calls of its jobs: each answer that the
/// recipient took is one that the donor gave in its run, and the session was opened once. A fact of
/// every call of a run is one of every call of each job, and the other way round, since a run has
/// the calls of its jobs and no others.
pub fn clone_laws<E, F, G, C, X>()
    ensures answered { (r : Reading E F G C X) (tasks : List (Task E F C X)) (run : List E)
        (fetched : List F) (got : X) → AllByRecursion (IsTask r) tasks → IsServedBy r tasks run
        → IsFetchedBy r tasks fetched
        → Contains (flat_map r.takes fetched) got → Contains (flat_map r.told run) got }
    ensures once { (r : Reading E F G C X) (first : Task E F C X)
        (others : List (Task E F C X)) (run : List E) (fetched : List F) (desk : List G)
        → AllByRecursion (IsTask r) (first ∷ others)
        → ((c : C) → r.inits c ≡ true → r.exits c ≡ false) → IsFirst r first others desk
        → IsServedBy r (first ∷ others) run → IsFetchedBy r (first ∷ others) fetched
        → IsOpenedOnce r.opens r.leaves run }
    ensures to_job { (parts : List (List E)) (run part : List E) (e : E) → IsMadeOf parts run
        → Contains parts part → Contains part e → Contains run e }
    ensures from_jobs { (parts : List (List E)) (run : List E) (e : E) → IsMadeOf parts run
        → Contains run e → (part : List E) × Contains parts part × Contains part e }
{}

/// The donor's cell was closed by a seat to which those of all jobs had been joined, with the whole
/// share between them. Then its run is one of calls for the tasks, where no call of another job
/// opens the session or ends it, but for some last calls, which may end it.
pub fn served_laws<M: Machine, F, G, C, X>()
    ensures { (r : Reading (Entry M.State M.Call M.Answer) F G C X)
        (tasks : List (Task (Entry M.State M.Call M.Answer) F C X))
        (asides : List (List (Entry M.State M.Call M.Answer)))
        (v t u : SeatModel M.State M.Call M.Answer)
        (ws : List (SeatModel M.State M.Call M.Answer))
        (last : List (Entry M.State M.Call M.Answer)) (first state : M.State) → Joins v ws t
        → ShareAll (v ∷ ws) → Makes t last u → ClosesAt M.steps first u state
        → parts_of ws ≡ answered_of tasks ++ asides
        → NoneIn (either r.opens r.leaves) (calls v.seen)
        → AllByRecursion (NoneIn (either r.opens r.leaves)) asides → NoneIn r.opens last
        → (run : List (Entry M.State M.Call M.Answer))
        × (IsLegalRun M.steps first run × (state ≡ end_of first run))
        × IsServedBy r tasks run }
{}

/// The same of the recipient's cell: its run is one of steps of the tasks, where no other call
/// takes an answer. What puts out no INIT after an EXIT step by step doesn't in the run.
pub fn fetched_laws<M: Machine, E, G, C, X>()
    ensures { (r : Reading E (Entry M.State M.Call M.Answer) G C X)
        (tasks : List (Task E (Entry M.State M.Call M.Answer) C X)) (has_left : M.State → Bool)
        (v t u : SeatModel M.State M.Call M.Answer)
        (ws : List (SeatModel M.State M.Call M.Answer))
        (last : List (Entry M.State M.Call M.Answer)) (first state : M.State) → Joins v ws t
        → ShareAll (v ∷ ws) → Makes t last u → ClosesAt M.steps first u state
        → parts_of ws ≡ stepped_of tasks → flat_map r.takes (calls v.seen) ≡ []
        → flat_map r.takes last ≡ [] → Keeps M.steps r.puts r.inits r.exits has_left
        → (run : List (Entry M.State M.Call M.Answer))
        × (IsLegalRun M.steps first run × (state ≡ end_of first run))
        × IsFetchedBy r tasks run }
{}

/// A machine that never puts out this after that, step by step, doesn't in a run.
pub fn last_laws<M: Machine, K>()
    ensures { (puts : Entry M.State M.Call M.Answer → List K) (opens leaves : K → Bool)
        (has_left : M.State → Bool) (first : M.State)
        (run : List (Entry M.State M.Call M.Answer)) → Keeps M.steps puts opens leaves has_left
        → IsLegalRun M.steps first run → NoneAfter opens leaves (flat_map puts run) }
{}

/// What an end sent and received since it was new, told as frames. Once a connection is settled
/// each end took the first of the frames that were put out at the other, and none where there were
/// none.
pub fn settled_laws<C, X>()
    ensures sent { (spelled : X → List ℕ) (old new : Option (List ℕ)) (xs : List X)
        → IsUnused old → TakesSome old new (spellings spelled xs) → WereSent spelled new xs }
    ensures taken { (spelled : X → List ℕ) (old new : Option (List ℕ)) (xs : List X)
        (rest : List ℕ) → IsUnused old → new ≡ appended old (spellings spelled xs ++ rest)
        → WereTaken spelled new xs }
    ensures ends { (command : C → List ℕ) (answer : X → List ℕ) (at_donor at_task : EndBytes)
        (donor task : Passed C X) → IsSettled command answer at_donor at_task donor task
        → AreEnds donor task }
    ensures unserved { (donor task : Passed C X) → AreEnds donor task → donor.answers ≡ []
        → task.answers ≡ [] }
{}

/// The desk hands out the least place that waits for a task, so the places that a seat's calls
/// handed out to the task ascend, and so do those of the connections that the task made.
pub fn desk_laws()
    ensures handed { (task : ℕ) (acts part : List DeskAct) → DeskRuns [] acts
        → IsSublist part acts → Ascends itself (handed task part) }
    ensures paired { (task : ℕ) (acts part : List DeskAct) → DeskRuns [] acts
        → IsSublist part acts → Ascends itself (paired task part) }
{}

/// Connections whose places ascend at both ends were served in the order in which they were made,
/// so the commands that came are in the order in which they were put out. Where the ends are
/// matched, each that was served is one that was made, and answers came where one was served.
pub fn connection_laws<C, X>()
    ensures order { (served made : List (Passed C X)) → Ascends place_of served
        → Ascends place_of made → AreOf served made → AreInOrder served made }
    ensures commands { (served made : List (Passed C X)) → AreInOrder served made
        → IsSublist (commands_of served) (commands_of made) }
    ensures matched { (served made : List (Passed C X)) → AreMatched served made
        → AreOf served made × AllByRecursion (WasServed served) made }
{}

/// Where no INIT comes after an EXIT, no call that carries these commands out opens the session
/// after one that ends it. Nor does any call of a run of which all that open or end it are among
/// these, in their order. So the session was opened once.
pub fn opened_laws<C, E>()
    ensures carried { (inits exits : C → Bool) (opens leaves : E → Bool) (commands : List C)
        (made : List E) → ((c : C) → inits c ≡ true → exits c ≡ false)
        → Carried inits exits opens leaves commands made → NoneAfter inits exits commands
        → NoneAfter opens leaves made }
    ensures run { (opens leaves : E → Bool) (made run own : List E) (asides : List (List E))
        → IsMadeOf (own ∷ made ∷ asides) run → NoneIn (either opens leaves) own
        → AllByRecursion (NoneIn (either opens leaves)) asides
        → NoneAfter opens leaves made → NoneAfter opens leaves run }
    ensures once { (opens leaves : E → Bool) (run : List E) → NoneAfter opens leaves run
        → IsOpenedOnce opens leaves run }
{}

/// Where seats were joined one after the other, the run is shuffled from their calls: each call in
/// turn is the next one of one of the seats.
pub fn shuffled_laws<M: Machine>()
    ensures { (v t : SeatModel M.State M.Call M.Answer)
        (ws : List (SeatModel M.State M.Call M.Answer)) → Joins v ws t
        → IsShuffled (parts_of (v ∷ ws)) (calls t.seen) }
{}
