ghost use Rattle.std.specs.Prelude.{◌≡◌, ◌≤◌, ◌++◌, ◌⊎◌, List, ℕ, Result, length, take};
ghost use Rattle.std.specs.FinMap as finite;
ghost use Rattle.std.specs.List.{AllByRecursion};
ghost use Rattle.clone_bytes.specs.Fields.{IsBytes};
ghost use Rattle.clone_model.specs.History.{Rows, after_commits, rows_in};
ghost use Rattle.clone_model.specs.declared.change.Commit.{Commit};
ghost use Rattle.clone_follow.specs.Answers.{Decodes, Spells};
ghost use Rattle.clone_follow.specs.Binlog.{answer};
ghost use Rattle.clone_follow.specs.Following.{Following, Takes, TakesInTurn, with_rows};
ghost use Rattle.clone_follow.specs.Histories.{Event, AreSent, Runs, Follows};
ghost use Rattle.clone_follow.specs.Ranges.{IsFrame};
ghost use Rattle.clone_follow.specs.Spelling.{spelling};
ghost use Rattle.clone_follow.specs.declared.fault.FrameRefusal.{FrameRefusal};
ghost use Rattle.clone_follow.specs.declared.fault.FrameRefusal.TheVariants.{NoMemory};
ghost use Rattle.clone_follow.specs.declared.follower.FollowRefusal.{FollowRefusal};
ghost use Rattle.clone_follow.specs.declared.follower.FollowTook.{FollowTook};
ghost use Rattle.clone_follow.specs.declared.frame.FollowFrame.{FollowFrame};

/// After any list of deliveries and losses of frames that the donor sent, each delivered as often
/// as may be and in any order, the follower has applied the commits from its first position on, in
/// their order and each once, up to its position, which is one of the binlog's. So where its rows
/// were what the first commits leave, as many as its position, they are so again.
pub fn each_once()
    ensures applied { (binlog : List Commit) (old new : Following) (events : List Event) →
        old.position ≤ length binlog → AreSent binlog events → Runs old events new →
        Follows binlog old new }
    ensures folded { (binlog : List Commit) (old new : Following) → Follows binlog old new →
        old.rows ≡ after_commits finite.empty (take old.position binlog) →
        new.rows ≡ after_commits finite.empty (take new.position binlog) }
{}

/// A follower takes what its donor answers to its own WANT: it applies the commit, or hears that
/// there is none, unless it is out of memory.
pub fn in_turn()
    ensures { (binlog : List Commit) (old new : Following)
        (result : Result FollowTook FollowRefusal) → old.position ≤ length binlog →
        Takes old (answer binlog old.position) result new →
        TakesInTurn binlog old.position result }
{}

/// A follower that is opened with the rows of another has these rows.
pub fn opens_again()
    ensures { (rows : Rows) → with_rows finite.empty (rows_in rows) ≡ rows }
{}

/// No spelling of a frame begins another. So what was decoded is decoded again, whatever bytes
/// follow it.
pub fn one_spelling()
    ensures { (a b x y : List ℕ) (m n : FollowFrame) →
        Spells a m → Spells b n → a ++ x ≡ b ++ y → (a ≡ b) × (m ≡ n) }
{}

/// For every list of bytes one answer of `decode` fits, unless it is out of memory.
pub fn one_answer()
    ensures { (bytes : List ℕ) (a b : Result (FollowFrame × ℕ) FrameRefusal) →
        IsBytes bytes → Decodes bytes a → Decodes bytes b →
        (a ≡ b) ⊎ ((a ≡ Err NoMemory) ⊎ (b ≡ Err NoMemory)) }
{}

/// The spelling of a frame in its ranges is read as that frame, and no other bytes are; and what is
/// read is in its ranges.
pub fn spells_back()
    ensures read { (frame : FollowFrame) → IsFrame frame → Spells (spelling frame) frame }
    ensures only { (bytes : List ℕ) (frame : FollowFrame) → Spells bytes frame →
        IsFrame frame × (bytes ≡ spelling frame) }
{}
