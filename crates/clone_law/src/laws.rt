ghost use Rattle.std.specs.Prelude.{[]};
ghost use Rattle.clone_law.specs.Laws.{NewerStays, RedoneInParts, RedoneAgain, RedoneSince};
ghost use Rattle.clone_law.specs.Laws.{SinceLonger, SinceLengthened, FitsLonger, AllCount, OthersPass};
ghost use Rattle.clone_law.specs.Laws.{SpaceMade, SpaceLonger, SpaceDropped, SuitsThere, SuitsUnnamed};
ghost use Rattle.clone_law.specs.Laws.{RuleBegins, RuleKept, CleanIsDisk, DirtyIsRedone, StartsGive};
ghost use Rattle.clone_law.specs.Laws.{FilesStay, PagesStay, CopyRecovers};
ghost use Rattle.clone_law.specs.Mistakes.{Mistake, Misleads};
ghost use Rattle.clone_law.specs.Since.{Suits};
ghost use Rattle.clone_law.specs.Examples.{opening, SuitsOverflow, FlushedStops, SentIsNow, misleading, misled};

/// Redo of one page by page LSN.
pub fn redo_laws()
    ensures newer { NewerStays }
    ensures parts { RedoneInParts }
    ensures again { RedoneAgain }
    ensures since { RedoneSince }
{}

/// What a log that grows by a mini-transaction makes of one page.
pub fn growing_laws()
    ensures since { SinceLonger }
    ensures lengthened { SinceLengthened }
    ensures fits { FitsLonger }
    ensures counted { AllCount }
    ensures others { OthersPass }
    ensures made { SpaceMade }
    ensures longer { SpaceLonger }
    ensures dropped { SpaceDropped }
{}

/// Mini-transactions that suit a page: what the laws of redo ask of each that is appended.
pub fn suiting_laws()
    ensures there { SuitsThere }
    ensures unnamed { SuitsUnnamed }
{}

/// The rule of a page, and what it gives at the stop.
pub fn machine_laws()
    ensures begins { RuleBegins }
    ensures kept { RuleKept }
    ensures clean { CleanIsDisk }
    ensures dirty { DirtyIsRedone }
    ensures central { StartsGive }
{}

/// What was answered stays a value from which redo may start, whoever asked and however often.
pub fn answer_laws()
    ensures files { FilesStay }
    ensures pages { PagesStay }
{}

/// A copy that is laid from starting values and redone recovers to the rows of the donor's pages at
/// the stop.
pub fn recovery_laws()
    ensures { CopyRecovers }
{}

/// A page that is flushed in FILE COPY while its block is read, sent in PAGE COPY and changed once
/// more: what was sent, redone by the archived log, is the page at the stop.
pub fn flushed_example()
    ensures run { FlushedStops }
    ensures sent { SentIsNow }
{}

/// Each rule of the machine is needed: without it a run gives a starting value of which redo
/// doesn't make the page at the stop.
pub fn mistakes_mislead()
    ensures { (mistake : Mistake) → Misleads mistake 1 0 (misleading mistake) (misled mistake) }
{}

/// Mini-transactions that suit: a donor's first one its first page, and one that makes an overflow
/// page that page, which isn't there before.
pub fn suiting_examples()
    ensures opening { Suits 0 0 [] opening }
    ensures overflow { SuitsOverflow }
{}
