use clone_chunk::{Bitmap, TakenBlocks};
use clone_plain::EngineCall;
use clone_session::{Caller, Hello};

/// A call of a donor, with all that the call takes by value.
#[derive(Drop)]
pub enum DonorCall {
    /// A call of its engine.
    Engine {
        call: EngineCall,
    },
    /// A session begins, or a later incarnation begins it again.
    Init {
        hello: Hello,
    },
    /// A task joins the session.
    Attach {
        caller: Caller,
    },
    /// A later incarnation comes back, with the chunks of its stage that are finished.
    Reinit {
        caller: Caller,
        stage: u8,
        finished: Bitmap,
    },
    /// A later incarnation comes back, with the chunks of its stage that are finished, and the
    /// blocks of others that it has.
    ReinitBlocks {
        caller: Caller,
        stage: u8,
        taken: TakenBlocks,
    },
    /// Which blocks of a claimed chunk the requester has.
    Kept {
        caller: Caller,
        stage: u8,
        chunk: u32,
    },
    /// Whether a claim would be carried out.
    Execute {
        caller: Caller,
        stage: u8,
    },
    /// The next chunk is to be the task's.
    Claim {
        caller: Caller,
        stage: u8,
    },
    /// A block of a claimed chunk.
    ReadBlock {
        caller: Caller,
        stage: u8,
        chunk: u32,
        block: u8,
    },
    /// A stage is acknowledged. The floor is the position that the requester had looked up before.
    Ack {
        caller: Caller,
        stage: u8,
        floor: u64,
    },
    /// The requester has left.
    Exit {
        caller: Caller,
    },
    /// The session of this number is given up.
    Abandon {
        session: u64,
    },
    /// So many bytes of the log are to be archived at most.
    Archive {
        limit: u64,
    },
}
