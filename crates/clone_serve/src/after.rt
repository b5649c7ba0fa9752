use crate::{Doing, Execution, ServeAnswer, Work};
use clone_wire::Frame;

/// What follows an answer of the donor.
#[derive(Drop)]
pub enum After {
    /// The EXECUTE goes on, and this is asked next.
    Asks {
        execution: Execution,
        work: Work,
    },
    /// The step ends, once the frame is sent, if there is one.
    Ends {
        doing: Doing,
        sends: Option<Frame>,
        says: ServeAnswer,
    },
}
