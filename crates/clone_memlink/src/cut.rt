/// After how many bytes that are delivered to either end a connection is cut.
#[derive(Clone, Copy)]
pub struct Cut {
    pub to_donor: u64,
    pub to_requester: u64,
}

/// After how many bytes to the requester a connection is cut that `plan_cuts` names.
pub const PLANNED_CUT: u64 = 100_000;
