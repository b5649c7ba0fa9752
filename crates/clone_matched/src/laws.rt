ghost use Rattle.std.specs.Prelude.{◌≡◌, [], Contains, List, map};
ghost use Rattle.std.specs.List.{AllByRecursion};
ghost use Rattle.clone_outside.specs.declared.link.Side.TheVariants.{Donor, Requester};
ghost use Rattle.clone_turn.specs.Parts.{IsMadeOf};
ghost use Rattle.clone_turn.specs.Runs.{IsLegalRun, end_of};
ghost use Rattle.clone_runs.specs.Connections.{AreOf, WasServed};
ghost use Rattle.clone_desk.specs.Desks.{DeskModel};
ghost use Rattle.clone_desk.specs.Settling.{IsSettled};
ghost use Rattle.clone_desk.specs.Steps.{DeskEntry, DeskSteps};
ghost use Rattle.clone_reading.specs.Passing.{Each, PassedBytes, PassedDonor, PassedTask};
ghost use Rattle.clone_matched.specs.Parts.{AreApart, DeskPart, UsesDesk, asked_of};
ghost use Rattle.clone_matched.specs.Telling.{TellsEnds};

use clone_outside::Net;
use clone_reading::spelled_laws;
use clone_runs::settled_laws;
use std::collections::LinkedList;

/// The run of a desk where no connection was made at first is one of the calls of seats, each for
/// one side of one task. Once the connections are settled, and the ends that are at the desk tell
/// their bytes, each end that was served for a task is the other of one that the task made, and
/// where answers were taken the end was served.
pub fn matched_laws<N: Net>()
    ensures { (first : DeskModel N N.End) (run : List (DeskEntry N N.End))
        (parts : List (DeskPart N N.End)) → first.records ≡ []
        → IsLegalRun (DeskSteps N.Net N.End.Link) first run → IsMadeOf (map asked_of parts) run
        → AllByRecursion UsesDesk parts → AreApart parts
        → AllByRecursion (IsSettled N.End.Link) (end_of first run).records
        → AllByRecursion (TellsEnds N.End.Link) (end_of first run).records
        → (p q : DeskPart N N.End) → Contains parts p → Contains parts q → p.side ≡ Donor
        → q.side ≡ Requester → p.task ≡ q.task → (at_donor at_task : List PassedBytes)
        → Each (PassedDonor N.End.Link) p.lent at_donor
        → Each (PassedTask N.End.Link) q.lent at_task
        → AreOf at_donor at_task × AllByRecursion (WasServed at_donor) at_task }
{
    settled_laws::<LinkedList<u8>, LinkedList<u8>>();
    spelled_laws();
}
