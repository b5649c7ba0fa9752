//! Laws of writers and the donor that they share: whatever order their calls come in, the commits
//! of each are its stream.
ghost use Rattle.std.specs.Prelude.{◌≡◌, ◌≢◌, [], ℕ, List, None, Some, Result};
ghost use Rattle.clone_plain.specs.Donor.{Donor};
ghost use Rattle.clone_plain.specs.declared.call.EngineAnswer.{EngineAnswer};
ghost use Rattle.clone_plain.specs.declared.call.EngineCall.{EngineCall};
ghost use Rattle.clone_plain.specs.declared.refusal.EngineRefusal.{EngineRefusal};
ghost use Rattle.clone_workload.specs.Transactions.{stream};
ghost use Rattle.clone_writer.specs.Writers.{Writer, asked, starting, told};
ghost use Rattle.clone_writer.specs.Writing.{Agree, AreOf, BeginsFor, Leads, Spares, of_writer};

/// A writer that has made nothing agrees with a donor that has no commit of it.
pub fn begin_laws()
    ensures { (seed number tables count : ℕ) (d : Donor) → of_writer number d.binlog ≡ []
        → Agree (starting seed number tables count) d }
{}

/// What a writer asks keeps it in agreement, whatever is answered.
pub fn own_laws()
    ensures { (w : Writer) (d after : Donor) (call : EngineCall)
        (given : Result EngineAnswer EngineRefusal) → Agree w d → asked w ≡ Some call
        → Leads d call given after → Agree (told w given) after }
{}

/// A call that has nothing to do with a writer's transactions keeps it in agreement. What another
/// writer asks that agrees is such a call.
pub fn spared_laws()
    ensures keeps { (w : Writer) (d after : Donor) (call : EngineCall)
        (given : Result EngineAnswer EngineRefusal) → Agree w d → Spares w.number d call
        → Leads d call given after → Agree w after }
    ensures other { (w : Writer) (number : ℕ) (d : Donor) (call : EngineCall) → Agree w d
        → asked w ≡ Some call → w.number ≢ number → Spares number d call }
{}

/// Each open transaction and each commit is of one of the writers whose transactions were begun.
pub fn writers_laws()
    ensures { (numbers : List ℕ) (d after : Donor) (call : EngineCall)
        (given : Result EngineAnswer EngineRefusal) → AreOf numbers d → BeginsFor numbers call
        → Leads d call given after → AreOf numbers after }
{}

/// A writer that asks nothing more, and agrees with the donor, has committed its whole stream.
pub fn end_laws()
    ensures { (w : Writer) (d : Donor) → Agree w d → asked w ≡ None
        → of_writer w.number d.binlog ≡ stream w.seed w.number w.count w.tables }
{}
