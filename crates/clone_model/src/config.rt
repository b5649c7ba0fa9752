ghost use Rattle.std.specs.Prelude.{◌≡◌};
ghost use Rattle.clone_model.specs.Config.{usual};

/// The fewest frames that a pool may have.
pub const LEAST_POOL: u32 = 16;

/// The most frames that a pool may have.
pub const MOST_POOL: u32 = 4_096;

/// How many frames a pool has where nothing else is said.
pub const USUAL_POOL: u32 = 256;

/// The fewest bytes that a ring may have.
pub const LEAST_RING: u64 = 65_536;

/// The most bytes that a ring may have.
pub const MOST_RING: u64 = 16_777_216;

/// How many bytes a ring has where nothing else is said.
pub const USUAL_RING: u64 = 1_048_576;

/// How large a donor's pool and its ring are.
#[derive(Clone, Copy, Debug, PartialEq, Eq)]
pub struct Config {
    /// How many frames the pool has.
    pub pool: u32,
    /// How many bytes the ring has.
    pub ring: u64,
}

impl Config {
    /// The sizes where nothing else is said.
    pub fn usual() -> Config
        ensures { result ≡ usual }
    {
        Config {
            pool: USUAL_POOL,
            ring: USUAL_RING,
        }
    }
}
