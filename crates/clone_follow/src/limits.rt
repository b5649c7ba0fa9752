use clone_base::VALUE_LIMIT;

/// The bytes of a frame's code and length.
pub const HEAD_BYTES: usize = 5;

/// The bytes of COMMIT's fields before the changes.
pub const COMMIT_FIELDS: usize = 22;

/// The bytes of a change without those of its value.
pub const CHANGE_FIELDS: usize = 14;

/// The most bytes of a change.
pub const MOST_CHANGE: usize = CHANGE_FIELDS + VALUE_LIMIT;
