use clone_calls::{DonorAnswer, DonorCall};

/// A call that a job makes in its turn, with all that the call takes.
#[derive(Drop)]
pub enum JobCall {
    /// The run is to end.
    Halt,
    /// Whether the run is to end.
    Halted,
    /// How many commits there are.
    Look,
    /// A call of the donor.
    Donor { call: DonorCall },
}

/// The answer to a call of a job.
#[derive(Drop)]
pub enum JobAnswer {
    /// The run is to end from now on.
    Halt,
    /// Whether it is.
    Halted(bool),
    /// So many commits there are.
    Look(u64),
    /// That of the donor.
    Donor(DonorAnswer),
}
