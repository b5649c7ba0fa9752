ghost use Rattle.std.specs.Prelude.{◌≡◌, ◌≤◌, ◌++◌, ℕ, List, length};
ghost use Rattle.std.specs.List.{filter_map};
ghost use Rattle.clone_outside.specs.Causes.{Rose};
ghost use Rattle.clone_model.specs.declared.config.Config.{Config};
ghost use Rattle.clone_script.specs.declared.lines.Line.{Line};
ghost use Rattle.clone_script.specs.declared.terms.Terms.{Terms};
ghost use Rattle.clone_events.specs.Events.{Event, PlainEvent};
ghost use Rattle.clone_events.specs.BreaksOff as plain;
ghost use Rattle.clone_events.specs.Headline.{donor_order, recipient_order};
ghost use Rattle.clone_events.specs.Runs as plain_runs;
ghost use Rattle.clone_events.specs.World.{IsWithin};
ghost use Rattle.clone_core.specs.System.{donor_of};
ghost use Rattle.clone_core.specs.Ending.{ending_of};
ghost use Rattle.clone_core.specs.Lines.{State, BreaksOff, IsNew, Runs, plain_of};
ghost use Rattle.clone_core.specs.declared.world.Ending.TheVariants.{RecipientFault};

/// A run of a world is one of its plain donor, and so is what a line has done where memory ran out
/// in it. In each run from the beginning each line adds at most one commit, and one transaction of
/// each writer; each disk got the orders of the lines that are for it, and no others; and a fault
/// of the recipient's disk by which a clone ended, or which came in the way of its rows, is in its
/// count.
pub fn run_laws()
    ensures plain { (s : State) (lines : List Line) (events : List (List Event)) (t : State)
        → Runs s lines events t
        → plain_runs.Runs (λ d. d) PlainEvent (plain_of s) lines events (plain_of t) }
    ensures breaks { (s : State) (line : Line) (t : State) → BreaksOff s line t
        → plain.BreaksOff (λ d. d) PlainEvent (plain_of s) line (plain_of t) }
    ensures within { (config : Config) (terms : Terms) (s : State) (lines : List Line)
        → (events : List (List Event)) (t : State) (n : ℕ) → IsNew config terms s
        → Runs s lines events t → length lines ≤ n → IsWithin donor_of n t }
    ensures donor_orders { (s : State) (lines : List Line) (events : List (List Event)) (t : State)
        → Runs s lines events t → t.donor.donor.engine.disk.orders
        ≡ s.donor.donor.engine.disk.orders ++ filter_map donor_order lines }
    ensures recipient_orders { (s : State) (lines : List Line) (events : List (List Event))
        → (t : State) → Runs s lines events t → t.donor.recipient.orders
        ≡ s.donor.recipient.orders ++ filter_map recipient_order lines }
    ensures tells { (s : State) (lines : List Line) (events : List (List Event)) (t : State)
        → Runs s lines events t → t.tells ≡ s.tells }
    ensures recipient_fault { (config : Config) (terms : Terms) (s : State) (lines : List Line)
        → (events : List (List Event)) (t : State) → IsNew config terms s → Runs s lines events t
        → ending_of t.clone ≡ RecipientFault
        → Rose s.donor.recipient.failures t.donor.recipient.failures }
{}
