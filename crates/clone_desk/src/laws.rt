//! Laws of the runs of a desk.
ghost use Rattle.std.specs.Prelude.{◌≡◌, [], List, map, ℕ, Ok, Some};
ghost use Rattle.clone_outside.specs.declared.link.Side.TheVariants.{Donor, Requester};
ghost use Rattle.clone_turn.specs.Parts.{IsSublist};
ghost use Rattle.clone_turn.specs.Runs.{IsLegalRun, end_of};
ghost use Rattle.clone_runs.specs.Desk.{DeskRuns, handed, itself, paired};
ghost use Rattle.clone_runs.specs.Marks.{Ascends};
ghost use Rattle.clone_desk.specs.declared.machine.DeskCall.{DeskCall};
ghost use Rattle.clone_desk.specs.Desks.{DeskModel, Fits, Gives, Makes};
ghost use Rattle.clone_desk.specs.Steps.{CallFits, DeskEntry, DeskSteps, act_of};

use clone_outside::{Link, Net};
use clone_runs::desk_laws;

/// The run of a desk where no connection was made at first hands out the least place that waits. So
/// the places that the calls of any seat handed out to a task ascend, and so do those of the
/// connections that a task made.
pub fn desk_run_laws<N: Net>()
    ensures runs { (first : DeskModel N N.End) (run : List (DeskEntry N N.End))
        → first.records ≡ [] → IsLegalRun (DeskSteps N.Net N.End.Link) first run
        → DeskRuns [] (map act_of run) }
    ensures handed { (first : DeskModel N N.End) (run part : List (DeskEntry N N.End)) (task : ℕ)
        → first.records ≡ [] → IsLegalRun (DeskSteps N.Net N.End.Link) first run
        → IsSublist part run → Ascends itself (handed task (map act_of part)) }
    ensures paired { (first : DeskModel N N.End) (run part : List (DeskEntry N N.End)) (task : ℕ)
        → first.records ≡ [] → IsLegalRun (DeskSteps N.Net N.End.Link) first run
        → IsSublist part run → Ascends itself (paired task (map act_of part)) }
{
    desk_laws();
}

/// An end that was answered may be given back, at once and after any calls.
pub fn fit_laws<N: Net>()
    ensures paired { (s t : DeskModel N N.End) (task place : ℕ) (end e : N.End)
        → Makes N.Net N.End.Link s task place end t → ◌≡◌ (N.End.name e) (N.End.name end)
        → N.End.side e ≡ Requester → Fits N.End.Link t place Requester e }
    ensures handed { (s t : DeskModel N N.End) (task place : ℕ) (end e : N.End)
        → Gives N.Net N.End.Link s task place end t → ◌≡◌ (N.End.name e) (N.End.name end)
        → N.End.side e ≡ Donor → Fits N.End.Link t place Donor e }
    ensures later { (call : DeskCall N.End) (s : DeskModel N N.End)
        (run : List (DeskEntry N N.End)) → CallFits N.End.Link call s
        → IsLegalRun (DeskSteps N.Net N.End.Link) s run → CallFits N.End.Link call (end_of s run) }
{}
