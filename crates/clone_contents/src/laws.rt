ghost use Rattle.clone_contents.specs.Laws.{OpeningLaw, CreateLaw, BeginLaw, ChangeLaw};
ghost use Rattle.clone_contents.specs.Laws.{TakingBackLaw, EndLaw, CommitLaw, UndoingLaw, FreeingLaw};
ghost use Rattle.clone_contents.specs.Laws.{RowsShown, RowsContained, SlotsContained, KeysFound, FreeFound, NextFound};
ghost use Rattle.clone_contents.specs.Laws.{PlacedFirst, PlacedLonger};
ghost use Rattle.clone_contents.specs.Spaces.{GrowthLaw, DropLaw};

/// What opening leaves: a system space of 257 pages, no table, no undo slot in use, and no commit.
pub fn opening_law()
    ensures { OpeningLaw }
{}

/// What it does to the contents that a table is made: the dictionary names it, and it has a space,
/// of which no slot was ever used.
pub fn create_law()
    ensures { CreateLaw }
{}

/// What it does to the contents that the space of a table gets one page more: the dictionary tells
/// so, and the page is behind another one. No slot of it was ever used.
pub fn growth_law()
    ensures { GrowthLaw }
{}

/// What it does to the contents that a table is dropped: its entry of the dictionary is free, and
/// its space is gone.
pub fn drop_law()
    ensures { DropLaw }
{}

/// What it does to the contents that a transaction begins: its undo slot is in use, without a
/// change. The page of the slot's header is made first where it was never used.
pub fn begin_law()
    ensures { BeginLaw }
{}

/// What a change does to the contents: its undo record joins those of its undo slot, and its row
/// slot is set. Pages that were never used are made first.
pub fn change_law()
    ensures { ChangeLaw }
{}

/// What it does to the contents that the last change is taken back: the undo slot loses its last
/// record, and the row slot that this one names is as it was.
pub fn taking_back_law()
    ensures { TakingBackLaw }
{}

/// What it does to the contents that a transaction ends: its undo slot is free.
pub fn end_law()
    ensures { EndLaw }
{}

/// What a commit does to the contents: the undo slot is free, and the number of commits is that of
/// the record.
pub fn commit_law()
    ensures { CommitLaw }
{}

/// What it does to the contents that recovery takes a change back: the row slot that the record
/// names is as it was.
pub fn undoing_law()
    ensures { UndoingLaw }
{}

/// What it does to the contents that recovery frees an undo slot.
pub fn freeing_law()
    ensures { FreeingLaw }
{}

/// The rows of an image are those of its contents.
pub fn rows_law()
    ensures contained { RowsContained }
    ensures shown { RowsShown }
{}

/// What is found on a page of a table, slot by slot, and the page behind it on its chain, are what
/// the contents have there.
pub fn find_laws()
    ensures slot { SlotsContained }
    ensures bound { KeysFound }
    ensures free { FreeFound }
    ensures next { NextFound }
{}

/// At each moment of a log of mini-transactions that leave formed images, each page isn't there, is
/// zero, or is well formed at its place. So it is before the log, and stays with each that comes.
pub fn placed_laws()
    ensures begins { PlacedFirst }
    ensures grows { PlacedLonger }
{}
