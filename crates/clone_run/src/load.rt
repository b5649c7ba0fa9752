use clone_model::BucketCount;

/// What is written to the donor while it is cloned, and how the clone is taken.
#[derive(Clone, Copy, Debug)]
pub struct Load {
    /// What the workload is generated from.
    pub seed: u64,
    /// How many writers there are.
    pub writers: u32,
    /// How many transactions each writer commits.
    pub transactions: u64,
    /// How many tables there are, from 1 on.
    pub tables: u32,
    /// How many buckets each table has.
    pub buckets: BucketCount,
    /// How many tasks clone.
    pub tasks: u8,
    /// How many losses are let off.
    pub limit: u32,
    /// How many of the first connections are cut, where the net is in memory.
    pub cuts: u32,
}
