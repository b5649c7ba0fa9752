ghost use Rattle.std.specs.Prelude.{◌≡◌, ◌++◌, [], ℕ, List, true, Some};
ghost use Rattle.std.specs.declared.option.Option.{Option};
ghost use Rattle.clone_outside.specs.Disk.{DiskImage, ForTold};
ghost use Rattle.clone_accepted.specs.Answers.{Item};
ghost use Rattle.clone_accepted.specs.Whole.{IsWhole};
ghost use Rattle.clone_wire.specs.declared.frame.Frame.{Frame};
ghost use Rattle.clone_tasks.specs.Losing.{loss_table};
ghost use Rattle.clone_tasks.specs.Sending.{after_sending};
ghost use Rattle.clone_tasks.specs.Tables.{is_done};
ghost use Rattle.clone_tasks.specs.declared.end.CloneEnd.{CloneEnd};
ghost use Rattle.clone_tasks.specs.declared.rule.Rule.{Rule};
ghost use Rattle.clone_recipient.specs.Expecting.{is_expected};
ghost use Rattle.clone_recipient.specs.Receptions.{AreCounted, Reception, begun};
ghost use Rattle.clone_recipient.specs.Record.{IsRecordOf, items_of};
ghost use Rattle.clone_recipient.specs.Taking.{Takes};

/// What is known of a recipient's record: it begins with nothing, a frame that is taken adds what
/// it says, and what is sent, a loss and an end leave it. Once all is copied, all was accepted.
pub fn record_laws()
    ensures begins { (session count limit version : ℕ) (first : DiskImage)
        (told : Option DiskImage) → ForTold told (λ m. m ≡ first)
        → IsRecordOf (begun session count limit version) [] first told }
    ensures takes { (r new : Reception) (task : ℕ) (frame : Frame) (items : List Item)
        (first : DiskImage) (told now : Option DiskImage) → AreCounted r.table.phase r
        → is_expected r task frame ≡ true → Takes frame task r new told now
        → IsRecordOf r items first told
        → IsRecordOf new (items ++ items_of r task frame) first now }
    ensures sends { (r : Reception) (rule : Rule) (task floor : ℕ) (items : List Item)
        (first : DiskImage) (told : Option DiskImage) → IsRecordOf r items first told
        → IsRecordOf (record r { table = after_sending rule r.table task floor })
        items first told }
    ensures loses { (r : Reception) (incarnation : ℕ) (items : List Item) (first : DiskImage)
        (told : Option DiskImage) → IsRecordOf r items first told
        → IsRecordOf (record r { table = loss_table r.table incarnation }) items first told }
    ensures ends { (r : Reception) (how : CloneEnd) (items : List Item) (first : DiskImage)
        (told : Option DiskImage) → IsRecordOf r items first told
        → IsRecordOf (record r { table = record r.table { ended = Some how } })
        items first told }
    ensures whole { (r : Reception) (items : List Item) (first : DiskImage)
        (told : Option DiskImage) → IsRecordOf r items first told
        → is_done r.table.phase ≡ true → IsWhole items r.checkpoint r.lsn r.position }
{}
