ghost use Rattle.std.specs.Prelude.{◌≡◌};
ghost use Rattle.clone_engine.specs.Acts.{EngineActs};
ghost use Rattle.clone_engine.specs.Steps.{answer_of};

use crate::Donor;
use clone_calls::{Answers, DonorAnswer, DonorCall};
use clone_outside::PageDisk;
use clone_plain::{EngineAnswer, EngineCall, EngineRefusal};
use std::alloc::Global;

// The calls as values.
impl<D: PageDisk> Answers for Donor<D> {
    ghost use Rattle.clone_engine.specs.Acts.{CloneActs};

    ghost gives = { λ d asked given t. CloneActs asked given d t };

    fn answer(&mut self, alloc: Global, call: DonorCall) -> DonorAnswer {
        match call {
            DonorCall::Engine { call } => DonorAnswer::Engine(self.carry_out(alloc, call)),
            DonorCall::Init { hello } => DonorAnswer::Init(self.init(alloc, &hello)),
            DonorCall::Attach { caller } => DonorAnswer::Attach(self.attach(alloc, caller)),
            DonorCall::Reinit {
                caller,
                stage,
                finished,
            } => DonorAnswer::Reinit(self.reinit(alloc, caller, stage, &finished)),
            DonorCall::ReinitBlocks {
                caller,
                stage,
                taken,
            } => DonorAnswer::ReinitBlocks(self.reinit_blocks(alloc, caller, stage, &taken)),
            DonorCall::Kept {
                caller,
                stage,
                chunk,
            } => DonorAnswer::Kept(self.kept(caller, stage, chunk)),
            DonorCall::Execute { caller, stage } => {
                DonorAnswer::Execute(self.execute(caller, stage))
            }
            DonorCall::Claim { caller, stage } => DonorAnswer::Claim(self.claim(caller, stage)),
            DonorCall::ReadBlock {
                caller,
                stage,
                chunk,
                block,
            } => DonorAnswer::ReadBlock(self.read_block(alloc, caller, stage, chunk, block)),
            DonorCall::Ack {
                caller,
                stage,
                floor,
            } => DonorAnswer::Ack(self.ack(alloc, caller, stage, floor)),
            DonorCall::Exit { caller } => DonorAnswer::Exit(self.exit(caller)),
            DonorCall::Abandon { session } => DonorAnswer::Abandon(self.abandon(session)),
            DonorCall::Archive { limit } => DonorAnswer::Archive(self.archive(limit)),
        }
    }
}

impl<D: PageDisk> Donor<D> {
    // A call of the engine.
    fn carry_out(&mut self, alloc: Global, call: EngineCall) -> Result<EngineAnswer, EngineRefusal>
        ensures acts { EngineActs call result self.old self.new }
    {
        self.laws();
        match call {
            EngineCall::Create { table, buckets } => {
                answered(self.create(table, buckets), EngineAnswer::Create)
            }
            EngineCall::Drop { table } => answered(self.drop_table(table), EngineAnswer::Drop),
            EngineCall::Begin { writer, index } => match self.begin(alloc, writer, index) {
                Ok(trx) => Ok(EngineAnswer::Begin { trx }),
                Err(refusal) => Err(refusal),
            },
            EngineCall::Put {
                trx,
                table,
                key,
                value,
            } => answered(self.put(trx, table, key, value.bytes()), EngineAnswer::Put),
            EngineCall::Delete { trx, table, key } => {
                answered(self.delete(trx, table, key), EngineAnswer::Delete)
            }
            EngineCall::Get { trx, table, key } => match self.get(trx, table, key) {
                Ok(value) => Ok(EngineAnswer::Get { value }),
                Err(refusal) => Err(refusal),
            },
            EngineCall::UndoOne { trx } => match self.undo_one(trx) {
                Ok(undone) => Ok(EngineAnswer::UndoOne { undone }),
                Err(refusal) => Err(refusal),
            },
            EngineCall::Commit { trx } => match self.commit(trx) {
                Ok(position) => Ok(EngineAnswer::Commit { position }),
                Err(refusal) => Err(refusal),
            },
            EngineCall::FlushBegin { space, page } => {
                answered(self.flush_begin(space, page), EngineAnswer::FlushBegin)
            }
            EngineCall::FlushHalf { space, page } => {
                answered(self.flush_half(space, page), EngineAnswer::FlushHalf)
            }
            EngineCall::FlushLand { space, page } => {
                answered(self.flush_land(space, page), EngineAnswer::FlushLand)
            }
            EngineCall::OldestDirty => Ok(EngineAnswer::OldestDirty {
                page: self.oldest_dirty(),
            }),
            EngineCall::Checkpoint => Ok(EngineAnswer::Checkpoint {
                lsn: self.checkpoint(),
            }),
            EngineCall::End => Ok(EngineAnswer::End { lsn: self.end() }),
        }
    }
}

// What a call answers that was carried out, or why it wasn't.
fn answered(
    done: Result<(), EngineRefusal>,
    answer: EngineAnswer,
) -> Result<EngineAnswer, EngineRefusal>
    ensures { result ≡ answer_of (λ _. answer) done }
{
    match done {
        Ok(()) => Ok(answer),
        Err(refusal) => Err(refusal),
    }
}
