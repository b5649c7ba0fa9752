use crate::fetch_end::FetchEnd;

/// What comes after a turn of a task.
#[derive(Drop)]
pub(crate) enum Turn {
    /// Another turn.
    GoesOn,
    /// The connection is over.
    Over,
    Ended(FetchEnd),
}
