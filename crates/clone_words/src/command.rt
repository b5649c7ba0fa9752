/// What a command line asks for.
#[derive(Clone, Copy, Debug, PartialEq, Eq)]
pub enum Command<'a> {
    /// Carry out the script of the source.
    Steps,
    /// Clone a donor while writers write to it.
    Run(Run<'a>),
    /// Recover the recipient's disk.
    Recover(Recover<'a>),
    /// Recover the recipient's disk and write its rows.
    Dump(Dump<'a>),
}

/// The options of `run`.
#[derive(Clone, Copy, Debug, PartialEq, Eq)]
pub struct Run<'a> {
    /// What the workload is generated from.
    pub seed: u64,
    /// How many writers there are.
    pub writers: u64,
    /// How many transactions each writer commits.
    pub transactions: u64,
    /// How many tables there are.
    pub tables: u64,
    /// How many buckets each table has.
    pub buckets: u64,
    /// How many tasks clone.
    pub tasks: u64,
    /// How often a lost connection may be made anew.
    pub limit: u64,
    /// How many frames the pool has.
    pub pool: u64,
    /// How many bytes the ring has.
    pub ring: u64,
    /// How many times a connection is cut.
    pub cuts: u64,
    /// Whether a report is written.
    pub report: bool,
    /// The directory of the disks, or none where they are in memory.
    pub dir: Option<&'a str>,
    /// Whether the connections are sockets, and not in memory.
    pub tcp: bool,
    /// Whether the pages are to be compressed.
    pub compress: bool,
}

/// The options of `recover`.
#[derive(Clone, Copy, Debug, PartialEq, Eq)]
pub struct Recover<'a> {
    /// The directory of the disk.
    pub dir: &'a str,
}

/// The options of `dump`.
#[derive(Clone, Copy, Debug, PartialEq, Eq)]
pub struct Dump<'a> {
    /// The directory of the disk.
    pub dir: &'a str,
}

/// Where a command finds its disks and its connections.
#[derive(Clone, Copy, Debug, PartialEq, Eq)]
pub struct Place<'a> {
    /// The directory of the disks, or none where they are in memory.
    pub dir: Option<&'a str>,
    /// Whether the connections are sockets, and not in memory.
    pub tcp: bool,
}
