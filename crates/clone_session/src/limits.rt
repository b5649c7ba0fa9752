/// The first version of the protocol.
pub const VERSION: u16 = 1;

/// The version in which a later incarnation tells the blocks that it has, and they are kept.
pub const BLOCKS_VERSION: u16 = 2;
