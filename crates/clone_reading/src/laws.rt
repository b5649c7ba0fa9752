ghost use Rattle.std.specs.Prelude.{◌≡◌, List, true, false};
ghost use Rattle.clone_runs.specs.Spellings.{AreToldFrom};
ghost use Rattle.clone_wire.specs.declared.frame.Side.{Side};
ghost use Rattle.clone_reading.specs.Reading.{AreSpelled, Bytes, as_they_are, is_exit, is_init};

/// Frames are told from each other by their bytes, and INIT isn't EXIT.
pub fn spelled_laws()
    ensures apart { (side : Side) (xs ys : List Bytes) → AreSpelled side xs → AreSpelled side ys
        → AreToldFrom as_they_are xs ys }
    ensures other { (bytes : Bytes) → is_init bytes ≡ true → is_exit bytes ≡ false }
{}
