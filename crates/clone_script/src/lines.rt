use clone_model::{BucketCount, ScriptValue, TableNumber, Value};

/// A line of a script.
#[derive(Debug, PartialEq, Eq, Drop)]
pub enum Line {
    /// `create T B`: table T is made with B buckets.
    Create {
        /// The number of the table.
        table: TableNumber,
        /// How many buckets it gets.
        buckets: BucketCount,
    },
    /// `drop T`: table T is dropped.
    Drop {
        /// The number of the table.
        table: TableNumber,
    },
    /// `begin W`: writer W begins a transaction.
    Begin {
        /// The writer.
        writer: u32,
    },
    /// `put S T K V`: transaction S gives a row its value.
    Put {
        /// The transaction.
        trx: u32,
        /// The number of the row's table.
        table: TableNumber,
        /// The key of the row in its table.
        key: u64,
        /// The value that the row gets.
        value: ScriptValue,
    },
    /// `del S T K`: transaction S removes a row.
    Delete {
        /// The transaction.
        trx: u32,
        /// The number of the row's table.
        table: TableNumber,
        /// The key of the row in its table.
        key: u64,
    },
    /// `get S T K`: transaction S reads a row.
    Get {
        /// The transaction.
        trx: u32,
        /// The number of the row's table.
        table: TableNumber,
        /// The key of the row in its table.
        key: u64,
    },
    /// `undo S`: what transaction S changed is taken back.
    Undo {
        /// The transaction.
        trx: u32,
    },
    /// `commit S`: transaction S is committed.
    Commit {
        /// The transaction.
        trx: u32,
    },
    /// `set W T K V`: writer W begins a transaction, gives a row its value and commits.
    Set {
        /// The writer.
        writer: u32,
        /// The number of the row's table.
        table: TableNumber,
        /// The key of the row in its table.
        key: u64,
        /// The value that the row gets.
        value: ScriptValue,
    },
    /// `flush X P`: page P of space X is written to the disk.
    Flush {
        /// The number of the space.
        space: u32,
        /// The number of the page in its space.
        page: u32,
    },
    /// `half X P`: the first half of page P of space X is written to the disk.
    Half {
        /// The number of the space.
        space: u32,
        /// The number of the page in its space.
        page: u32,
    },
    /// `land X P`: the second half of page P of space X is written to the disk.
    Land {
        /// The number of the space.
        space: u32,
        /// The number of the page in its space.
        page: u32,
    },
    /// `clean`: each page that was changed is written to the disk.
    Clean,
    /// `checkpoint`: a checkpoint is taken.
    Checkpoint,
    /// `lsn`: the ends of the log are shown.
    Lsn,
    /// `tear N`: from now on a read of a page that is half written gives nothing but byte N.
    Tear {
        /// The byte.
        byte: u8,
    },
    /// `fail donor N`: the Nth call of the donor's disk from now on fails.
    FailDonor {
        /// The number of the call, where the next one has number 1.
        call: u32,
    },
    /// `fail recipient N`: the Nth call of the recipient's disk from now on fails.
    FailRecipient {
        /// The number of the call, where the next one has number 1.
        call: u32,
    },
    /// `start`: a clone begins.
    Start,
    /// `task K`: a step of task K.
    Task {
        /// The number of the task.
        task: u8,
    },
    /// `serve C`: a step of the donor on connection C.
    Serve {
        /// The number of the connection.
        connection: u32,
    },
    /// `cut C A B`: connection C is cut. Of what isn't read A bytes are kept towards the donor, and
    /// B towards the task.
    Cut {
        /// The number of the connection.
        connection: u32,
        /// How many bytes are kept towards the donor.
        to_donor: u32,
        /// How many bytes are kept towards the task.
        to_task: u32,
    },
    /// `advance`: rounds of steps, until a stage is to be acknowledged or the clone has ended.
    Advance,
    /// `finish`: rounds of steps, until the clone has ended.
    Finish,
    /// `look`: the requester looks up how many commits there are.
    Look,
    /// `archive N`: N bytes of the log are archived, or as many as are left.
    Archive {
        /// How many bytes.
        bytes: u32,
    },
    /// `status`: how far the clone is.
    Status,
    /// `raw HEX`: a stranger sends these bytes to the donor, on a connection of its own.
    Raw {
        /// The bytes.
        bytes: Value,
    },
    /// `feed C HEX`: these bytes come to the task on connection C.
    Feed {
        /// The number of the connection.
        connection: u32,
        /// The bytes.
        bytes: Value,
    },
    /// `abandon`: the donor gives its session up.
    Abandon,
    /// `follow`: the follower asks the donor for the next commit.
    Follow,
    /// `lose`: the next answer to the follower is lost.
    Lose,
    /// `repeat K`: the Kth commit that was sent is delivered again.
    Repeat {
        /// The number of the commit, where the first that was sent has number 1.
        sent: u64,
    },
    /// `replica`: the rows of the follower are shown.
    Replica,
    /// `clone`: a clone begins, and is brought to its end.
    Clone,
    /// `rows`: the rows of the clone are shown.
    Rows,
}
