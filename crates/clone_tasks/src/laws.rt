ghost use Rattle.std.specs.Prelude.{◌≡◌, ◌≢◌, ℕ, true, false, Some};
ghost use Rattle.std.specs.declared.option.Option.{Option};
ghost use Rattle.clone_chunk.specs.declared.copy_stage.CopyStage.{CopyStage};
ghost use Rattle.clone_wire.specs.declared.frame.Frame.{Frame};
ghost use Rattle.clone_wire.specs.declared.frame.Side.TheVariants.{Command};
ghost use Rattle.clone_wire.specs.Spelling.{side_of};
ghost use Rattle.clone_marks.specs.Blocks.{all_finished, AreAllTaken};
ghost use Rattle.clone_tasks.specs.declared.rule.Link.{Link};
ghost use Rattle.clone_tasks.specs.declared.rule.Rule.{Rule};
ghost use Rattle.clone_tasks.specs.declared.rule.Rule.TheVariants.{Acknowledge, Execute};
ghost use Rattle.clone_tasks.specs.declared.standing.Phase.TheVariants.{Copying};
ghost use Rattle.clone_tasks.specs.Rules.{rule_at, sending_rule};
ghost use Rattle.clone_tasks.specs.Sending.{IsSent, sends};
ghost use Rattle.clone_tasks.specs.Tables.{Table, standing_of, awaits_end};

/// What the rules say: where a task sends by its rule, the table sends by the same; and a stage is
/// acknowledged by task 0 alone, once each chunk is finished and no task awaits an END.
pub fn rule_laws()
    ensures agree { (made : Option ℕ) (t : Table) (task : ℕ) (link : Link) →
        sends (rule_at made t task link) ≡ true → sending_rule t task ≡ rule_at made t task link }
    ensures first { (t : Table) (task : ℕ) (stage : CopyStage) →
        sending_rule t task ≡ Acknowledge stage → task ≡ 0 }
    ensures finished { (t : Table) (task : ℕ) (stage : CopyStage) →
        sending_rule t task ≡ Acknowledge stage → all_finished t.marks ≡ true }
    ensures nobody { (t : Table) (task other : ℕ) (stage : CopyStage) →
        sending_rule t task ≡ Acknowledge stage → awaits_end (standing_of t other) ≡ false }
{}

/// What is sent is a requester's frame.
pub fn sending_laws()
    ensures { (rule : Rule) (t : Table) (task floor : ℕ) (frame : Frame) →
        IsSent rule t task floor frame → side_of frame ≡ Command }
{}
