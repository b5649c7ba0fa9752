ghost use Rattle.std.specs.Prelude.{List, ◌++◌, Bool, ℕ};
ghost use Rattle.clone_turn.specs.Worked.{Makes};
ghost use Rattle.clone_desk.specs.Steps.{DeskEntry};
ghost use Rattle.clone_copying.specs.Calls.{FetcherModel, RecipientSeat};
ghost use Rattle.clone_copying.specs.Connecting.{DeskSeat};
ghost use Rattle.clone_copying.specs.Watching.{AreLooks};
ghost use Rattle.clone_copying.specs.declared.fetch_end.FetchEnd.{FetchEnd};
ghost use Rattle.clone_machine.specs.Running.{JobEntry};
ghost use Rattle.clone_machine.specs.declared.calls.JobAnswer.TheVariants as answer;
ghost use Rattle.clone_machine.specs.declared.calls.JobCall.TheVariants as call;
ghost use Rattle.clone_links.specs.Calling.{IsOneCall, JobSeat};
ghost use Rattle.clone_writer.specs.Writers.{Writer};
ghost use Rattle.clone_jobs.specs.Said.{said_in};
ghost use Rattle.clone_jobs.specs.Upkeep.{IsUpkeep};
ghost use Rattle.clone_jobs.specs.Writing.{Writes};
ghost use Rattle.clone_jobs.specs.declared.ending.Ending.{Ending};
ghost use Rattle.clone_jobs.specs.declared.upkeep.Upkeep.{Upkeep};
ghost use Rattle.clone_task_jobs.specs.Fetching.{FetchesTask, HaltsUnless};
ghost use Rattle.clone_task_jobs.specs.Serving.{IsServing, Service};
ghost use Rattle.clone_reading.specs.Passing.{AnswersTask};
ghost use Rattle.clone_answering.specs.Answering.{ServesNothing, lent_of};

use clone_outside::{Link, Net};

/// What a job does that serves the connections of a task is the donor's side of the task, whatever
/// the number of the session: the ends that were lent to it, what passed at each, and the calls
/// that carried the commands out.
pub fn serving_laws<N: Net>()
    ensures { (number task : ℕ) (why : Ending) (made : List JobEntry)
        (asked : List (DeskEntry N N.End)) (served : List (Service N.End))
        → IsServing N.End.Link task why made asked served
        → AnswersTask N.End.Link number task made asked (lent_of served) }
{}

/// The calls of a writer, of a job of upkeep, of the watch of a job that fetches, and the call that
/// lets the run end serve nothing.
pub fn aside_laws<N: Net, R>()
    ensures writer { (number : ℕ) (end : Ending) (w v : Writer) (made : List JobEntry)
        → Writes end w (said_in made) v → ServesNothing number made }
    ensures upkeep { (number : ℕ) (work : Upkeep) (end : Ending) (made : List JobEntry)
        → IsUpkeep work end (said_in made) → ServesNothing number made }
    ensures looks { (number : ℕ) (complete : Bool) (looked last : List JobEntry)
        → AreLooks call.Halted call.Look looked → HaltsUnless complete last
        → ServesNothing number (looked ++ last) }
    ensures watch { (number : ℕ) (f : FetcherModel R) (seat : RecipientSeat R)
        (desk_old desk_new : DeskSeat N N.End) (watch_old watch_new : JobSeat) (end : FetchEnd)
        (watched : List JobEntry)
        → FetchesTask N.End.Link f seat desk_old desk_new watch_old watch_new end
        → Makes watch_old watched watch_new → ServesNothing number watched }
    ensures halt { (number : ℕ) (made : List JobEntry)
        → IsOneCall call.Halt answer.Halt made → ServesNothing number made }
{}
