ghost use Rattle.std.specs.Prelude.{◌≡◌, ◌++◌, List, ℕ, Result};
ghost use Rattle.clone_mtr.specs.Answers.{Decodes};
ghost use Rattle.clone_mtr.specs.Spelling.{Spells};
ghost use Rattle.clone_mtr.specs.declared.record.Record.{Record};
ghost use Rattle.clone_mtr.specs.declared.refusal.DecodeRefusal.{DecodeRefusal};

/// No spelling of a mini-transaction begins another. So what was encoded is decoded again, whatever
/// follows it.
pub fn one_spelling()
    ensures { (a b x y : List ℕ) (m n : List Record) → Spells a m → Spells b n → a ++ x ≡ b ++ y
        → (a ≡ b) × (m ≡ n) }
{}

/// For every list of bytes one answer of `decode` fits.
pub fn one_answer()
    ensures { (bytes : List ℕ) (a b : Result (List Record × ℕ) DecodeRefusal) → Decodes bytes a
        → Decodes bytes b → a ≡ b }
{}
