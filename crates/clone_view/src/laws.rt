ghost use Rattle.std.specs.Prelude.{◌≡◌, ◌≢◌, ◌<◌, ◌≤◌, ℕ, suc, true, false, List, [], ◌∷◌};
ghost use Rattle.std.specs.Prelude.{◌⊎◌, ◌+◌, ◌-◌, Bool, None, Some, length};
ghost use Rattle.std.specs.Prelude.{slice_get, slice_index};
ghost use Rattle.std.specs.List.{All};
ghost use Rattle.std.specs.declared.option.Option.{Option};
ghost use Rattle.clone_chunk.specs.Chunks.{IsTaken, is_kept};
ghost use Rattle.clone_chunk.specs.Stages.{copy_number, stage_number};
ghost use Rattle.clone_chunk.specs.declared.chunk.Chunk.TheVariants as chunk;
ghost use Rattle.clone_chunk.specs.declared.copy_stage.CopyStage.{CopyStage};
ghost use Rattle.clone_chunk.specs.declared.stage.Stage.{Stage};
ghost use Rattle.clone_marks.specs.Blocks.{IsChunk, blocks_of, is_taken};
ghost use Rattle.clone_marks.specs.Counts.{block_counts};
ghost use Rattle.clone_marks.specs.declared.chunk_marks.ChunkMarks.{ChunkMarks};
ghost use Rattle.clone_snapshot.specs.StageLists.{StageList, block_count};
ghost use Rattle.clone_session.specs.Cloning.{Session};
ghost use Rattle.clone_session.specs.CloneCauses.{donor_stage};
ghost use Rattle.clone_session.specs.Effects.{begun};
ghost use Rattle.clone_session.specs.declared.caller.Caller.{Caller};
ghost use Rattle.clone_serve.specs.Following.{work_after, work_at};
ghost use Rattle.clone_serve.specs.declared.doing.Doing.{Doing};
ghost use Rattle.clone_serve.specs.declared.doing.Doing.TheVariants.{New, Ready, Serving};
ghost use Rattle.clone_serve.specs.declared.doing.Execution.{Execution};
ghost use Rattle.clone_serve.specs.declared.doing.Place.{Place};
ghost use Rattle.clone_serve.specs.declared.doing.Work.TheVariants.{Claim, Read};
ghost use Rattle.clone_tasks.specs.Awaiting.{awaits_block, awaits_end_of, awaits_stage, moves};
ghost use Rattle.clone_tasks.specs.Losing.{after_loss, is_spent};
ghost use Rattle.clone_tasks.specs.Moves.{HasTaken, begins, joined_by, served};
ghost use Rattle.clone_tasks.specs.Rules.{sending_rule};
ghost use Rattle.clone_tasks.specs.Sending.{IsSent, after_sending};
ghost use Rattle.clone_tasks.specs.Tables.{AreStandings, Table, incarnation_of, is_running};
ghost use Rattle.clone_tasks.specs.declared.rule.Rule.TheVariants.{Receive};
ghost use Rattle.clone_tasks.specs.declared.standing.Phase.{Phase};
ghost use Rattle.clone_wire.specs.declared.frame.Frame.{Frame};
ghost use Rattle.clone_rounds.specs.World.{Acknowledge, Execute, First, Free};
ghost use Rattle.clone_rounds.specs.World.{Serving as ServingCore};
ghost use Rattle.clone_rounds.specs.World.{Block, End, Stage as StageAnswer};
ghost use Rattle.clone_rounds.specs.World.{IsLive, IsServing, World, put};
ghost use Rattle.clone_rounds.specs.Awaiting.{Rule};
ghost use Rattle.clone_rounds.specs.Steps.{TaskStep, kept_of};
ghost use Rattle.clone_view.specs.Rows.{left_from, place_of, places};
ghost use Rattle.clone_view.specs.Tables.{IsTable, phase_number};
ghost use Rattle.clone_view.specs.Applying.{Applies};
ghost use Rattle.clone_view.specs.Frames.{answer_of, command_of};
ghost use Rattle.clone_view.specs.Donors.{AreOwned, ByChunk, core_of};
ghost use Rattle.clone_view.specs.Views.{Follows, HasFront, IsAt, IsView, Leads, Line};
ghost use Rattle.clone_view.specs.Views.{line_answered, line_closed, line_doing, line_over};
ghost use Rattle.clone_view.specs.Views.{line_read, line_sent, line_served, line_started};

/// While a clone goes on, the rule by which a task acts applies in the rounds; where it has none,
/// none does.
pub fn rules_apply()
    ensures { (t : Table) (w : World) (task : ℕ) → IsTable t w → is_running t ≡ true
        → Applies (sending_rule t task) w task }
{}

/// A task that sends a frame, other than EXIT, makes a step of the rounds.
pub fn task_sends()
    ensures { (counts : ℕ → List ℕ) (t : Table) (session : Option Session)
        (lines : ℕ → Option Line) (w : World) (task floor : ℕ) (frame : Frame)
        → IsView counts t session lines w → is_running t ≡ true → task < length t.standings
        → IsSent (sending_rule t task) t task floor frame → (command_of frame ≡ None → ⊥)
        → Follows counts (after_sending (sending_rule t task) t task floor) session
        (put lines task (Some (line_sent (lines task) frame))) w }
{}

/// So does a task that takes the frame for which it waits: a STAGE that leaves the recipient where
/// it is, or one that moves it to a stage of which no block was taken; a block; or an END.
pub fn task_takes()
    ensures stage { (counts : ℕ → List ℕ) (t : Table) (session : Option Session)
        (lines : ℕ → Option Line) (w : World) (task : ℕ) (l : Line) (got : Frame)
        (left : List Frame) (at : Stage) → HasFront counts t session lines w task l got left
        → answer_of counts got ≡ Some (StageAnswer (stage_number at))
        → awaits_stage t task at ≡ true → moves t task ≡ false
        → Follows counts (joined_by t task) session (put lines task (Some (line_read l left))) w }
    ensures moves { (counts : ℕ → List ℕ) (t : Table) (session : Option Session)
        (lines : ℕ → Option Line) (w : World) (task : ℕ) (l : Line) (got : Frame)
        (left : List Frame) (at : Stage) → HasFront counts t session lines w task l got left
        → answer_of counts got ≡ Some (StageAnswer (stage_number at))
        → awaits_stage t task at ≡ true → (phase : Phase) (marks : List ChunkMarks)
        → AreStandings t.standings t.marks → phase_number phase ≡ suc (phase_number t.phase)
        → All IsChunk marks → w.sides.size (suc w.sides.stage) ≡ places (blocks_of marks)
        → ((chunk block : ℕ) → is_taken marks chunk block ≡ false) → moves t task ≡ true
        → Follows counts (begins phase marks t) session
        (put lines task (Some (line_read l left))) w }
    ensures block { (counts : ℕ → List ℕ) (t : Table) (session : Option Session)
        (lines : ℕ → Option Line) (w : World) (task : ℕ) (l : Line) (got : Frame)
        (left : List Frame) → HasFront counts t session lines w task l got left
        → (stage : CopyStage) (chunk block : ℕ) (new : Table)
        → answer_of counts got
        ≡ Some (Block (copy_number stage) (place_of (blocks_of t.marks) chunk block))
        → awaits_block t task stage chunk block ≡ true → HasTaken t chunk block new
        → All IsChunk new.marks
        → Follows counts new session (put lines task (Some (line_read l left))) w }
    ensures end { (counts : ℕ → List ℕ) (t : Table) (session : Option Session)
        (lines : ℕ → Option Line) (w : World) (task : ℕ) (l : Line) (got : Frame)
        (left : List Frame) → HasFront counts t session lines w task l got left
        → (stage : CopyStage) → answer_of counts got ≡ Some (End (copy_number stage))
        → awaits_end_of t task stage ≡ true
        → Follows counts (served t task) session (put lines task (Some (line_read l left))) w }
{}

/// And a task that finds a loss which the clone outlasts, where the donor has come to no later
/// incarnation. However many steps are left on the connections that there were, the view has them.
pub fn task_loses()
    ensures { (counts : ℕ → List ℕ) (t : Table) (session : Option Session)
        (lines : ℕ → Option Line) (w : World) (task late : ℕ) (l : Line)
        → IsView counts t session lines w → is_running t ≡ true
        → sending_rule t task ≡ Receive → lines task ≡ Some l → l.answers ≡ []
        → l.cut ≡ true → is_spent (after_loss t) ≡ false
        → ((s : Session) → session ≡ Some s → s.incarnation ≤ incarnation_of t)
        → (u : World) × TaskStep w u × IsView counts (after_loss t) session (λ j. None) u
        × (u.late ≡ late) }
{}

/// A donor's step on a task's connection is a step of the rounds: where it answers ATTACH or a
/// repeated acknowledgement by its stage, begins an EXECUTE, sends the END of one since no chunk is
/// free, fails within one by its disk, or finds a loss.
pub fn donor_steps()
    ensures attach { (counts : ℕ → List ℕ) (t : Table) (s : Session) (lines : ℕ → Option Line)
        (w : World) (task : ℕ) (l : Line) (command frame : Frame) (caller : Caller)
        → IsAt counts t s lines w task l New (command ∷ []) → task ≢ 0
        → command_of command ≡ Some First → s.incarnation ≡ incarnation_of t
        → answer_of counts frame ≡ Some (StageAnswer (donor_stage s))
        → Leads counts t s
        (put lines task (Some (line_answered l (Ready caller) frame))) w }
    ensures repeated { (counts : ℕ → List ℕ) (t : Table) (s : Session) (lines : ℕ → Option Line)
        (w : World) (l : Line) (command frame : Frame) (caller : Caller) (stage : ℕ)
        → IsAt counts t s lines w 0 l (Ready caller) (command ∷ [])
        → command_of command ≡ Some (Acknowledge stage) → suc stage ≡ donor_stage s
        → answer_of counts frame ≡ Some (StageAnswer (donor_stage s))
        → Leads counts t s (put lines 0 (Some (line_answered l (Ready caller) frame))) w }
    ensures starts { (counts : ℕ → List ℕ) (t : Table) (s : Session) (lines : ℕ → Option Line)
        (w : World) (task : ℕ) (l : Line) (command : Frame) (caller : Caller) (run : Execution)
        → IsAt counts t s lines w task l (Ready caller) (command ∷ [])
        → command_of command ≡ Some (Execute (copy_number run.stage))
        → copy_number run.stage ≡ donor_stage s
        → Leads counts t s (put lines task (Some (line_started l (Serving run Claim)))) w }
    ensures ends { (counts : ℕ → List ℕ) (t : Table) (s : Session) (lines : ℕ → Option Line)
        (w : World) (task : ℕ) (l : Line) (run : Execution) (frame : Frame)
        → IsAt counts t s lines w task l (Serving run Claim) []
        → copy_number run.stage ≡ donor_stage s → All IsTaken s.snap.chunks
        → answer_of counts frame ≡ Some (End (donor_stage s))
        → Leads counts t s
        (put lines task (Some (line_served l (Ready run.caller) frame))) w }
    ensures fails { (counts : ℕ → List ℕ) (t : Table) (s : Session) (lines : ℕ → Option Line)
        (w : World) (task : ℕ) (l : Line) (now : Doing) (unread : List Frame)
        → IsAt counts t s lines w task l now unread → IsServing (w.seats task).core
        → Leads counts t s (put lines task (Some (line_closed l))) w }
    ensures loses { (counts : ℕ → List ℕ) (t : Table) (s : Session) (lines : ℕ → Option Line)
        (w : World) (task : ℕ) (l : Line) (now : Doing) → IsAt counts t s lines w task l now []
        → IsLive (w.seats task).core → (IsServing (w.seats task).core → ⊥) → l.cut ≡ true
        → Leads counts t s (put lines task (Some (line_over l))) w }
{}

/// So is its step where it takes up an incarnation, in the recipient's stage or in the next one,
/// and where it moves to the next stage, each as the session has the blocks then. In a stage that
/// has just begun each block is free.
pub fn donor_stages()
    ensures here { (counts : ℕ → List ℕ) (t : Table) (session : Option Session) (s : Session)
        (lines : ℕ → Option Line) (w : World) (l : Line) (command frame : Frame)
        (caller : Caller) → IsView counts t session lines w → Rule w → w.sides.met ≡ false
        → lines 0 ≡ Some l → l.doing ≡ New → l.commands ≡ command ∷ []
        → command_of command ≡ Some First → s.incarnation ≡ incarnation_of t
        → w.sides.at ≡ w.sides.stage → 0 < w.sides.at → donor_stage s ≡ w.sides.at
        → w.sides.size (donor_stage s) ≡ places (block_counts s.snap.list)
        → AreOwned s (λ place. kept_of (w.sides.taken place))
        → answer_of counts frame ≡ Some (StageAnswer (donor_stage s))
        → Leads counts t s (put lines 0 (Some (line_answered l (Ready caller) frame))) w }
    ensures next { (counts : ℕ → List ℕ) (t : Table) (session : Option Session) (s : Session)
        (lines : ℕ → Option Line) (w : World) (l : Line) (command frame : Frame)
        (caller : Caller) → IsView counts t session lines w → Rule w → w.sides.met ≡ false
        → lines 0 ≡ Some l → l.doing ≡ New → l.commands ≡ command ∷ []
        → command_of command ≡ Some First → s.incarnation ≡ incarnation_of t
        → (w.sides.at ≡ suc w.sides.stage) ⊎ ((w.sides.at ≡ 0) × (w.sides.stage ≡ 0))
        → donor_stage s ≡ suc w.sides.stage
        → w.sides.size (donor_stage s) ≡ places (block_counts s.snap.list)
        → AreOwned s (λ place. Free)
        → answer_of counts frame ≡ Some (StageAnswer (donor_stage s))
        → Leads counts t s (put lines 0 (Some (line_answered l (Ready caller) frame))) w }
    ensures agrees { (counts : ℕ → List ℕ) (t : Table) (s now : Session)
        (lines : ℕ → Option Line) (w : World) (l : Line) (command frame : Frame)
        (caller : Caller) → IsAt counts t s lines w 0 l (Ready caller) (command ∷ []) → Rule w
        → command_of command ≡ Some (Acknowledge (donor_stage s))
        → now.incarnation ≡ s.incarnation → donor_stage now ≡ suc (donor_stage s)
        → w.sides.size (donor_stage now) ≡ places (block_counts now.snap.list)
        → AreOwned now (λ place. Free)
        → answer_of counts frame ≡ Some (StageAnswer (donor_stage now))
        → Leads counts t now (put lines 0 (Some (line_answered l (Ready caller) frame))) w }
    ensures begun { (s : Session) (list : StageList) → s.snap ≡ begun list
        → AreOwned s (λ place. Free) }
{}

/// And so is its step within an EXECUTE: a free chunk is claimed, and those of its blocks that
/// aren't kept are still to be sent; and the first of these is sent, after which the chunk may be
/// finished.
pub fn donor_sends()
    ensures claims { (counts : ℕ → List ℕ) (t : Table) (s now : Session)
        (lines : ℕ → Option Line) (w : World) (task : ℕ) (l : Line) (run : Execution)
        (unread : List Frame) → IsAt counts t s lines w task l (Serving run Claim) unread
        → copy_number run.stage ≡ donor_stage s → (i : ℕ)
        → slice_get s.snap.chunks i ≡ Some chunk.Free → ByChunk s now i
        → donor_stage now ≡ donor_stage s
        → slice_get now.snap.chunks i ≡ Some (chunk.Claimed task) → (b : ℕ) (bs : List ℕ)
        → left_from (place_of (block_counts s.snap.list) i 0) (slice_index s.snap.kept i) 0
        (block_count s.snap.list i) ≡ b ∷ bs → (next : Doing)
        → core_of now.snap.list next ≡ Some (ServingCore (donor_stage s) (b ∷ bs))
        → Leads counts t now (put lines task (Some (line_doing l next))) w }
    ensures reads { (counts : ℕ → List ℕ) (t : Table) (s now : Session)
        (lines : ℕ → Option Line) (w : World) (task : ℕ) (l : Line) (run : Execution)
        (place : Place) (again : Bool) (unread : List Frame)
        → IsAt counts t s lines w task l (Serving run (Read place again)) unread → Rule w
        → copy_number run.stage ≡ donor_stage s → is_kept place.kept place.block ≡ false
        → place.kept ≡ slice_index s.snap.kept place.chunk
        → place.block < block_count s.snap.list place.chunk
        → slice_get s.snap.chunks place.chunk ≡ Some (chunk.Claimed task)
        → ByChunk s now place.chunk → donor_stage now ≡ donor_stage s
        → (slice_get now.snap.chunks place.chunk ≡ Some (chunk.Claimed task))
        ⊎ (slice_get now.snap.chunks place.chunk ≡ Some chunk.Finished)
        → (next : Doing) (frame : Frame) → core_of now.snap.list next
        ≡ Some (ServingCore (donor_stage s)
        (left_from (place_of (block_counts s.snap.list) place.chunk 0) place.kept
        (place.block + 1) (block_count s.snap.list place.chunk - place.block - 1)))
        → answer_of counts frame ≡ Some (Block (donor_stage s)
        (place_of (block_counts s.snap.list) place.chunk place.block))
        → Leads counts t now (put lines task (Some (line_served l next frame))) w }
{}

/// What an EXECUTE goes on with, once a chunk is claimed and after each of its blocks: the blocks
/// that are left of the chunk, or another chunk after the last one.
pub fn works()
    ensures begins { (list : StageList) (run : Execution) (i kept : ℕ) → kept < 255
        → core_of list (Serving run (work_at i kept 0))
        ≡ Some (ServingCore (copy_number run.stage)
        (left_from (place_of (block_counts list) i 0) kept 0 (block_count list i))) }
    ensures goes_on { (list : StageList) (run : Execution) (place : Place) → place.kept < 255
        → place.block < block_count list place.chunk → block_count list place.chunk ≤ 8
        → core_of list (Serving run (work_after place false))
        ≡ Some (ServingCore (copy_number run.stage)
        (left_from (place_of (block_counts list) place.chunk 0) place.kept (place.block + 1)
        (block_count list place.chunk - place.block - 1))) }
    ensures ends { (list : StageList) (run : Execution) (place : Place)
        → ((later : ℕ) → place.block < later → later < block_count list place.chunk
        → is_kept place.kept later ≡ true) → core_of list (Serving run (work_after place true))
        ≡ Some (ServingCore (copy_number run.stage)
        (left_from (place_of (block_counts list) place.chunk 0) place.kept (place.block + 1)
        (block_count list place.chunk - place.block - 1))) }
{}
