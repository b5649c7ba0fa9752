ghost use Rattle.std.specs.Prelude.{◌≡◌, ◌++◌, ◌⊎◌, List, ℕ, Result};
ghost use Rattle.clone_bytes.specs.Fields.{IsBytes};
ghost use Rattle.clone_wire.specs.Answers.{Decodes, Spells};
ghost use Rattle.clone_wire.specs.Ranges.{IsFrame};
ghost use Rattle.clone_wire.specs.Spelling.{side_of, spelling};
ghost use Rattle.clone_wire.specs.declared.fault.WireRefusal.{WireRefusal};
ghost use Rattle.clone_wire.specs.declared.fault.WireRefusal.TheVariants.{NoMemory};
ghost use Rattle.clone_wire.specs.declared.frame.Frame.{Frame};
ghost use Rattle.clone_wire.specs.declared.frame.Side.{Side};

/// No spelling of a frame begins another of its side. So what was decoded is decoded again,
/// whatever bytes follow it.
pub fn one_spelling()
    ensures { (side : Side) (a b x y : List ℕ) (m n : Frame) →
        Spells side a m → Spells side b n → a ++ x ≡ b ++ y → (a ≡ b) × (m ≡ n) }
{}

/// For every list of bytes one answer of `decode` fits, unless it is out of memory.
pub fn one_answer()
    ensures { (side : Side) (bytes : List ℕ) (a b : Result (Frame × ℕ) WireRefusal) →
        IsBytes bytes → Decodes side bytes a → Decodes side bytes b →
        (a ≡ b) ⊎ ((a ≡ Err NoMemory) ⊎ (b ≡ Err NoMemory)) }
{}

/// The spelling of a frame in its ranges is read as that frame, on the side that sends it. No other
/// bytes are, and none on the other side; and what is read is in its ranges.
pub fn spells_back()
    ensures read { (frame : Frame) → IsFrame frame → Spells (side_of frame) (spelling frame) frame }
    ensures only { (side : Side) (bytes : List ℕ) (frame : Frame) → Spells side bytes frame →
        IsFrame frame × (side ≡ side_of frame) × (bytes ≡ spelling frame) }
{}
