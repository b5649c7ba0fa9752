ghost use Rattle.std.specs.Prelude.{◌≡◌, List, ℕ, ◌++◌, Result};
ghost use mathlib.Core.List.{IsPrefix};
ghost use Rattle.clone_wire.specs.Answers.{Decodes};
ghost use Rattle.clone_wire.specs.declared.fault.WireRefusal.{WireRefusal};
ghost use Rattle.clone_wire.specs.declared.frame.Frame.{Frame};
ghost use Rattle.clone_wire.specs.declared.frame.Side.{Side};
ghost use Rattle.clone_stream.specs.Streams.{AreFramesOf, AreFrontOf, IsTakenOf, ReadsNext};
ghost use Rattle.clone_stream.specs.Streams.{spellings};

/// What an end received begins what the other sent, and it was taken as these frames with these
/// bytes left. If so, the frames are the first of those that were sent, in their order, and what is
/// left begins the next ones. It doesn't matter in which pieces the bytes came.
pub fn in_order()
    ensures { (side : Side) (sent taken : List Frame) (received left : List ℕ) →
        AreFramesOf side sent → AreFramesOf side taken →
        received ≡ spellings taken ++ left → IsPrefix received (spellings sent) →
        IsTakenOf sent taken left }
{}

/// Bytes that begin frames are read as the first of them, or as less than that, and never as
/// garbled.
pub fn reads_next()
    ensures { (side : Side) (frames : List Frame) (bytes : List ℕ)
        (answer : Result (Frame × ℕ) WireRefusal) →
        AreFramesOf side frames → AreFrontOf bytes frames → Decodes side bytes answer →
        ReadsNext frames bytes answer }
{}
