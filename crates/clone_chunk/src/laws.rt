ghost use Rattle.std.specs.Prelude.{List, ◌≢◌, AllPairs};
ghost use Rattle.clone_chunk.specs.Lives.{Event, IsLife, claims_of};
ghost use Rattle.clone_chunk.specs.declared.chunk.Chunk.{Chunk};

/// Within one life of a map, which a reset or a restart ends, no chunk is claimed twice.
pub fn claimed_once()
    ensures { (states : List Chunk) (events : List Event) →
        IsLife states events → AllPairs (λ m n. m ≢ n) (claims_of events) }
{}
