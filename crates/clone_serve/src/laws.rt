ghost use Rattle.std.specs.Prelude.{◌≡◌, ◌++◌, ◌∷◌, [], List, Some, ℕ};
ghost use Rattle.clone_wire.specs.declared.frame.Frame.{Frame};
ghost use Rattle.clone_calls.specs.declared.answer.DonorAnswer.{DonorAnswer};
ghost use Rattle.clone_calls.specs.declared.call.DonorCall.{DonorCall};
ghost use Rattle.clone_serve.specs.declared.after.After.{After};
ghost use Rattle.clone_serve.specs.declared.doing.Doing.{Doing};
ghost use Rattle.clone_serve.specs.declared.doing.Doing.TheVariants.{New};
ghost use Rattle.clone_serve.specs.declared.turn.ServeAnswer.{ServeAnswer};
ghost use Rattle.clone_serve.specs.declared.turn.ServeTurn.{ServeTurn};
ghost use Rattle.clone_serve.specs.declared.turn.ServeTurn.TheVariants.{Ask};
ghost use Rattle.clone_serve.specs.Following.{after};
ghost use Rattle.clone_serve.specs.Runs.{Event, Runs, Served, asks, exchanges_of};
ghost use Rattle.clone_serve.specs.Serving.{Begins, Follows, doing_after, turn_after};
ghost use Rattle.clone_serve.specs.Stepping.{IsCarriedOut, IsStep, Sends};
ghost use Rattle.clone_serve.specs.Telling.{Exchange, frames_for};

/// The frames that were sent are those that tell the donor's answers, each its own, in the order of
/// the calls.
pub fn frames_are_answers()
    ensures { (d t : Doing) (events : List Event) (sent : List Frame) → Runs d events sent t →
        sent ≡ frames_for (exchanges_of events) }
{}

/// What an end has served goes on by each call of its side.
pub fn served_laws()
    // a new side has served nothing
    ensures new { Served New [] [] [] [] }
    // bytes come
    ensures comes { (d : Doing) (exchanges : List Exchange) (received left sent more : List ℕ) →
        Served d exchanges received left sent →
        Served d exchanges (received ++ more) (left ++ more) sent }
    // a step begins, and its first call is answered
    ensures begins { (d t u : Doing) (exchanges : List Exchange)
        (received left after_left sent after_sent : List ℕ)
        (asked : DonorCall) (given : DonorAnswer) (next : After) (turn : ServeTurn) →
        Served d exchanges received left sent → Begins d left after_left t (Ask asked) →
        after t given ≡ Some next → Follows next sent after_sent u turn →
        Served u (exchanges ++ (asked, given) ∷ []) received after_left after_sent }
    // it asked again, and that is answered
    ensures goes_on { (d u : Doing) (exchanges : List Exchange)
        (received left sent after_sent : List ℕ)
        (asked : DonorCall) (given : DonorAnswer) (next : After) (turn : ServeTurn) →
        Served d exchanges received left sent → asks d ≡ Some asked →
        after d given ≡ Some next → Follows next sent after_sent u turn →
        Served u (exchanges ++ (asked, given) ∷ []) received left after_sent }
    // what it asks again is what its side is doing
    ensures asks { (next : After) (asked : DonorCall) →
        turn_after next ≡ Ask asked → asks (doing_after next) ≡ Some asked }
{}

/// What a whole step does.
pub fn step_laws()
    // it sends the frames that tell its answers
    ensures sends { (exchanges : List Exchange) (d t : Doing)
        (received left sent after_sent : List ℕ) (says : ServeAnswer) →
        IsStep exchanges d received left sent after_sent t says →
        Sends (frames_for exchanges) sent after_sent says }
    // what an end has served goes on by it
    ensures serves { (before exchanges : List Exchange) (d t : Doing)
        (received left after_left sent after_sent : List ℕ) (says : ServeAnswer) →
        Served d before received left sent →
        IsStep exchanges d left after_left sent after_sent t says → IsCarriedOut says →
        Served t (before ++ exchanges) received after_left after_sent }
{}
