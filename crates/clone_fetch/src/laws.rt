ghost use Rattle.std.specs.Prelude.{◌++◌, [], List, ℕ};
ghost use Rattle.clone_wire.specs.declared.frame.Frame.{Frame};
ghost use Rattle.clone_tasks.specs.declared.rule.Link.{Link};
ghost use Rattle.clone_tasks.specs.declared.rule.Rule.{Rule};
ghost use Rattle.clone_fetch.specs.declared.answer.TaskAnswer.{TaskAnswer};
ghost use Rattle.clone_fetch.specs.Fetching.{Requester, StepsBy};
ghost use Rattle.clone_fetch.specs.Fetched.{Fetched, GoesOn};

/// What was taken are the first of the frames that were received, and what was put out are frames
/// of a requester, each in their order: over a new connection, when bytes come, and by each step.
pub fn fetched_laws()
    ensures new { Fetched [] [] [] [] [] }
    ensures comes { (taken put : List Frame) (received left sent more : List ℕ) →
        Fetched taken put received left sent →
        Fetched taken put (received ++ more) (left ++ more) sent }
    ensures steps { (taken put : List Frame) (received : List ℕ) (rule : Rule) (at : Link)
        (task floor : ℕ) (old new : Requester) (answer : TaskAnswer) →
        Fetched taken put received old.received old.sent →
        StepsBy rule at task floor old new answer →
        GoesOn taken put received new.received new.sent }
{}
