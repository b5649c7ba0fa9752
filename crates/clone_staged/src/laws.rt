ghost use Rattle.std.specs.Prelude.{◌≡◌, ◌<◌, ◌^◌, ℕ, List};
ghost use Rattle.clone_model.specs.History.{Row, Rows, fold, rows_in};
ghost use Rattle.clone_outside.specs.Disk.{DiskImage};
ghost use Rattle.clone_outside.specs.Mark.{IsEnd};
ghost use Rattle.clone_outside.specs.declared.mark.CloneEnd.{CloneEnd};
ghost use Rattle.clone_mtr.specs.declared.record.Record.{Record};
ghost use Rattle.clone_image.specs.Redone.{Standing};
ghost use Rattle.clone_image.specs.Replay.{replayed};
ghost use Rattle.clone_contents.specs.Placed.{IsPlaced, WasPlaced};
ghost use Rattle.clone_law.specs.Since.{AllFit, Since};
ghost use Rattle.clone_law.specs.Starts.{Gives};
ghost use Rattle.clone_plain.specs.Donor.{Donor, history};
ghost use Rattle.clone_recover.specs.Listing.{ListsRows};
ghost use Rattle.clone_recover.specs.Restores.{Answers};
ghost use Rattle.clone_recover.specs.declared.recovery.Recovered.{Recovered};
ghost use Rattle.clone_trx.specs.Sound.{IsKept};
ghost use Rattle.clone_staged.specs.Holds.{HoldsCopy};
ghost use Rattle.clone_staged.specs.Staged.{IsLogTo, IsStaged, completed};

/// What a disk that a clone was laid on holds. A disk that was laid in stages holds the rows of the
/// donor's history at the stop, if redo by the log from the checkpoint on makes each page what it
/// is then. A disk that is recovered holds the same clone as before, and the rows that are listed
/// of it are the clone's.
pub fn holds_laws()
    ensures staged { (d : Donor) (log : List (List Record)) (end : CloneEnd) (m : DiskImage)
        → IsKept d (replayed log) → IsLogTo end log → IsEnd end → IsStaged end.checkpoint log m
        → HoldsCopy (completed end m) (fold (history d)) end.position }
    ensures again { (m n : DiskImage) (numbers : Recovered) (rows : Rows) (position : ℕ)
        → HoldsCopy m rows position → numbers.position < 2 ^ 64 → Answers m n numbers
        → HoldsCopy n rows position }
    ensures listed { (m n : DiskImage) (numbers : Recovered) (rows : Rows) (position : ℕ)
        (list : List Row) → HoldsCopy m rows position → numbers.position < 2 ^ 64
        → Answers m n numbers → ListsRows n list → list ≡ rows_in rows }
{}

/// A page as it was at a moment of the donor's log may be laid, where that isn't before the base:
/// redo by the log from the base on makes it what the page is, and it may stand at its place.
pub fn start_laws()
    ensures since { (space number base : ℕ) (page : Standing) (log : List (List Record))
        → AllFit space number log → WasPlaced space number log → Since space number base page log
        → Gives space number base log page × IsPlaced space number page }
{}
