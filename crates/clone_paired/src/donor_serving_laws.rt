ghost use Rattle.std.specs.Prelude.{◌≡◌, ℕ, List, Some};
ghost use Rattle.clone_snapshot.specs.StageLists.{Files, Nothing, Pages, Redo};
ghost use Rattle.clone_recipient.specs.Receptions.{Reception};
ghost use Rattle.clone_network.specs.Networks.{Network, StepsDonor};
ghost use Rattle.clone_network.specs.declared.donor_step.DonorStep.{DonorStep};
ghost use Rattle.clone_engine.specs.Donor.{Donor};
ghost use Rattle.clone_told.specs.Told.{gives};
ghost use Rattle.clone_paired.specs.Blocks.{AreSpaces, AscendFrom, Ascends, HasAscending};
ghost use Rattle.clone_paired.specs.Calm.{IsInService};
ghost use Rattle.clone_paired.specs.Lines.{connection_of};
ghost use Rattle.clone_paired.specs.Own.{own_session};
ghost use Rattle.clone_paired.specs.Paired.{IsPaired};

/// Each step of the donor's end of a task's connection within an EXECUTE keeps a clone paired: a
/// chunk is claimed, redo is archived, a block is sent, or the END, the disk fails, memory runs
/// out, or a loss is found. The pages of each block that the session copies ascend.
pub fn serving_ends()
    ensures { (d t : Donor) (r : Reception) (n m : Network) (task number : ℕ)
        (answer : DonorStep) → IsPaired (own_session r.table.session d.cloning) r n
        → StepsDonor gives d t number n m answer → IsInService n number
        → connection_of n task ≡ Some number
        → Ascends (own_session r.table.session d.cloning)
        → IsPaired (own_session r.table.session t.cloning) r m }
{}

/// The pages of each block ascend: in the copy of files where the spaces and their pages have
/// numbers that a recipient knows, and in the copy of pages where they are listed so. Redo has none.
pub fn blocks_ascend()
    ensures files { (spaces : List (ℕ × ℕ)) → AreSpaces spaces → HasAscending (Files spaces) }
    ensures pages { (pages : List (ℕ × ℕ)) → AscendFrom 0 pages → HasAscending (Pages pages) }
    ensures redo { (start end : ℕ) → HasAscending (Redo start end) }
    ensures done { HasAscending Nothing }
{}
