ghost use Rattle.std.specs.Prelude.{◌≡◌, ◌≢◌, ◌≤◌, ◌++◌, ◌∷◌, [], ℕ, List, None, length};
ghost use Rattle.std.specs.FinMap as finite;
ghost use Rattle.std.specs.List.{AllByRecursion};
ghost use Rattle.clone_model.specs.History.{Drops, Committed, Dropped, fold, history_of};
ghost use Rattle.clone_model.specs.declared.change.Commit.{Commit};

/// A commit, or a drop, that comes behind all others is the last entry of the history. For a
/// commit, no drop stands behind the end of the binlog.
pub fn history_laws()
    ensures committed { (binlog : List Commit) (drops : Drops) (commit : Commit)
        → AllByRecursion (λ d. d.0 ≤ length binlog) drops
        → history_of (binlog ++ commit ∷ []) drops
        ≡ history_of binlog drops ++ Committed commit ∷ [] }
    ensures dropped { (binlog : List Commit) (drops : Drops) (table : ℕ)
        → history_of binlog (drops ++ (length binlog, table) ∷ [])
        ≡ history_of binlog drops ++ Dropped table ∷ [] }
{}

/// A drop that comes behind all others takes the rows of its table, and no others.
pub fn drop_laws()
    ensures gone { (binlog : List Commit) (drops : Drops) (table key : ℕ)
        → finite.get (fold (history_of binlog (drops ++ (length binlog, table) ∷ []))) (table, key)
        ≡ None }
    ensures others { (binlog : List Commit) (drops : Drops) (table other key : ℕ)
        → other ≢ table
        → finite.get (fold (history_of binlog (drops ++ (length binlog, table) ∷ []))) (other, key)
        ≡ finite.get (fold (history_of binlog drops)) (other, key) }
{}
