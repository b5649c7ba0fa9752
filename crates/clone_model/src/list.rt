ghost use Rattle.std.specs.Prelude.{◌≡◌, ◌↔◌, ◌++◌, ◌∷◌, ◌<◌, ◌≤◌, ◌+◌, [], IsTrue, OnOk, OnErr, IfOk, length, take, ◌-◌, option_to_list};

use crate::{Change, Commit};
use std::alloc::{AllocError, Global};
use std::marker::Model;

/// Changes in their order.
#[derive(Debug, Drop)]
pub struct Changes {
    list: Vec<Change>,
}

impl Model for Changes {
    ghost use Rattle.std.specs.Prelude.{List};
    ghost use Rattle.clone_model.specs.declared.change.Change.{Change};

    ghost Value = { List Change };

    ghost view = { λ c. c.list.items };
}

impl Changes {
    /// No changes. This takes no memory.
    pub fn new(alloc: Global) -> Changes
        ensures { result ≡ [] }
    {
        Changes {
            list: Vec::new(alloc),
        }
    }

    /// One change.
    pub fn with(alloc: Global, change: Change) -> Result<Changes, AllocError>
        ensures { IfOk result (λ changes. changes ≡ change ∷ []) }
    {
        let mut changes = Changes::new(alloc);
        changes.push(change)?;
        Ok(changes)
    }

    /// Adds a change behind the others. After a refusal the list is as before.
    pub fn push(&mut self, change: Change) -> Result<(), AllocError>
        ensures ok { OnOk result (self.new ≡ self.old ++ change ∷ []) }
        ensures err { OnErr result (self.new ≡ self.old) }
    {
        self.list.push(change)?;
        Ok(())
    }

    /// Takes the last change away, if there is one.
    pub fn pop(&mut self) -> Option<Change>
        ensures rest { self.new ≡ take (length self.old - 1) self.old }
        ensures last { self.old ≡ self.new ++ option_to_list result }
    {
        self.list.pop()
    }

    /// How many changes there are.
    pub fn len(&self) -> usize
        ensures { result ≡ length self.now }
    {
        self.list.len()
    }

    /// Whether there is no change.
    pub fn is_empty(&self) -> bool
        ensures { IsTrue result ↔ (self.now ≡ []) }
    {
        self.list.is_empty()
    }

    /// The changes, the first one first.
    pub fn as_slice(&self) -> &[Change]
        ensures { result.now ≡ self.now }
    {
        &self.list
    }
}

/// Commits in their order, with room for more of them.
#[derive(Debug, Drop)]
pub struct Binlog {
    list: Vec<Commit>,
}

impl Model for Binlog {
    ghost use Rattle.std.specs.Prelude.{◌-◌, vec_len, vec_capacity};
    ghost use Rattle.clone_model.specs.Binlog.{BinlogState};

    ghost Value = { BinlogState };

    ghost view = { λ b. record {
      commits = b.list.items;
      room = vec_capacity b.list - vec_len b.list;
    } };
}

impl Binlog {
    /// No commits. This takes no memory.
    pub fn new(alloc: Global) -> Binlog
        ensures { result.commits ≡ [] }
    {
        Binlog {
            list: Vec::new(alloc),
        }
    }

    /// Adds a commit behind the others. Refused only where there is no room, and then the commits
    /// are as before.
    pub fn push(&mut self, commit: Commit) -> Result<(), AllocError>
        ensures ok { OnOk result (self.new.commits ≡ self.old.commits ++ commit ∷ []) }
        ensures err { OnErr result (self.new.commits ≡ self.old.commits) }
        ensures full { OnErr result (self.old.room ≡ 0) }
        ensures room { self.old.room ≤ self.new.room + 1 }
    {
        self.list.push(commit)?;
        Ok(())
    }

    /// Adds a commit behind the others. There is room for it, so this takes no memory.
    pub fn push_within(&mut self, commit: Commit)
        requires room { 0 < self.old.room }
        ensures commits { self.new.commits ≡ self.old.commits ++ commit ∷ [] }
        ensures left { self.old.room ≤ self.new.room + 1 }
    {
        match self.list.push(commit) {
            Ok(()) => {}
            Err(_) => unreachable!(),
        }
    }

    /// Makes room for so many more commits. The commits stay the same, whatever the answer.
    pub fn reserve(&mut self, additional: usize) -> Result<(), AllocError>
        ensures ok { OnOk result (additional ≤ self.new.room) }
        ensures full { OnErr result (self.old.room < additional) }
        ensures same { self.new.commits ≡ self.old.commits }
        ensures room { self.old.room ≤ self.new.room }
    {
        self.list.reserve(additional)
    }

    /// Puts a commit in place of the last one.
    pub fn set_last(&mut self, commit: Commit)
        requires some { 0 < length self.old.commits }
        ensures value { self.new.commits
            ≡ take (length self.old.commits - 1) self.old.commits ++ commit ∷ [] }
    {
        let last = self.list.len() - 1;
        self.list[last] = commit;
    }

    /// Takes the last commit away, if there is one. Its room stays.
    pub fn pop(&mut self) -> Option<Commit>
        ensures rest { self.new.commits ≡ take (length self.old.commits - 1) self.old.commits }
        ensures last { self.old.commits ≡ self.new.commits ++ option_to_list result }
        ensures room { self.old.room ≤ self.new.room }
    {
        self.list.pop()
    }

    /// How many commits there are.
    pub fn len(&self) -> usize
        ensures { result ≡ length self.now.commits }
    {
        self.list.len()
    }

    /// Whether there is no commit.
    pub fn is_empty(&self) -> bool
        ensures { IsTrue result ↔ (self.now.commits ≡ []) }
    {
        self.list.is_empty()
    }

    /// The commits, the first one first.
    pub fn as_slice(&self) -> &[Commit]
        ensures { result.now ≡ self.now.commits }
    {
        &self.list
    }
}
