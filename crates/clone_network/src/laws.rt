ghost use Rattle.std.specs.Prelude.{◌≡◌, ℕ, true};
ghost use Rattle.clone_outside.specs.DiskCalls.{DiskState};
ghost use Rattle.clone_tasks.specs.Tables.{is_running};
ghost use Rattle.clone_tasks.specs.declared.end.CloneEnd.{CloneEnd};
ghost use Rattle.clone_tasks.specs.declared.end.CloneEnd.TheVariants.{Spent};
ghost use Rattle.clone_recipient.specs.Receptions.{Reception};
ghost use Rattle.clone_fetch.specs.declared.answer.TaskAnswer.{TaskAnswer};
ghost use Rattle.clone_fetch.specs.declared.answer.TaskAnswer.TheVariants.{Ended};
ghost use Rattle.clone_network.specs.Courses.{IsFloor, IsSpentBy, KeepsTerms, ended_then};
ghost use Rattle.clone_network.specs.Networks.{Network, StepsTask};

/// What a step of a task changes of how the clone ended and of its floor. A clone ends once, and
/// it is spent by the first loss beyond the limit. What it was begun with stays, and no step shows
/// what was recovered.
pub fn course_laws()
    ensures ended { (r s : Reception) (d e : DiskState) (n m : Network) (task floor : ℕ)
        (answer : TaskAnswer) → StepsTask task floor r s d e n m answer
        → s.table.ended ≡ ended_then answer r.table.ended }
    ensures once { (r s : Reception) (d e : DiskState) (n m : Network) (task floor : ℕ)
        (how : CloneEnd) → StepsTask task floor r s d e n m (Ended how)
        → is_running r.table ≡ true }
    ensures floor { (r s : Reception) (d e : DiskState) (n m : Network) (task floor : ℕ)
        (answer : TaskAnswer) → StepsTask task floor r s d e n m answer
        → IsFloor floor answer r.table.floor s.table.floor }
    ensures terms { (r s : Reception) (d e : DiskState) (n m : Network) (task floor : ℕ)
        (answer : TaskAnswer) → StepsTask task floor r s d e n m answer
        → KeepsTerms r.table s.table }
    ensures shown { (r s : Reception) (d e : DiskState) (n m : Network) (task floor : ℕ)
        (answer : TaskAnswer) → StepsTask task floor r s d e n m answer
        → s.recovered ≡ r.recovered }
    ensures spent { (r s : Reception) (d e : DiskState) (n m : Network) (task floor losses : ℕ)
        → StepsTask task floor r s d e n m (Ended (Spent losses))
        → IsSpentBy losses r.table s.table }
{}
