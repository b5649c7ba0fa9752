//! The state of an engine. Between calls no frame is pinned; and over a disk that tells what it
//! holds the pages stand over that. The ring has what comes next for the archive, the archived bytes
//! are the log's, and what a session copies is the engine's.
ghost use Rattle.std.specs.Prelude.{◌≡◌, ◌≢◌, ◌<◌, ◌^◌, length, option_copied, option_map};
ghost use Rattle.std.specs.FinMap as finite;
ghost use Rattle.std.specs.Option.{ForSome};
ghost use Rattle.clone_outside.specs.DiskCalls.{Orders};
ghost use Rattle.clone_outside.specs.declared.disk.DiskOrder.TheVariants.{Again};
ghost use Rattle.clone_archive.specs.Archived.{IsArchived};
ghost use Rattle.clone_ring.specs.Window.{end_of};
ghost use Rattle.clone_snapshot.specs.Snaps.{IsSnap};
ghost use Rattle.clone_plain.specs.Causes.{least_unused};
ghost use Rattle.clone_trx.specs.Kept.{IsSafe};
ghost use Rattle.clone_session.specs.Cloning.{IsCloning, Session};
ghost use Rattle.clone_engine.specs.Acts as act;
ghost use Rattle.clone_engine.specs.Acts.{Acts};
ghost use Rattle.clone_engine.specs.Donor.{IsDonor};
ghost use Rattle.clone_engine.specs.Over.{over};

use clone_buffer::Buffer;
use clone_flush::Flusher;
use clone_model::{Binlog, Commit, Drops};
use clone_outside::{DiskOrder, PageDisk, give_order};
use clone_session::{Cloning, Stop};
use clone_trx::Transactions;
use std::alloc::AllocError;

/// The engine of a donor without its disk: its transactions, its pages in frames with the redo log
/// behind them, its flushes, and the clone that it gives.
#[derive(Drop)]
pub struct Engine {
    /// The plain donor that it is.
    pub transactions: Transactions,
    /// The pages, and the log.
    pub buffer: Buffer,
    /// The flushes, the last checkpoint, and the files.
    pub flusher: Flusher,
    /// The session of a clone, with what is tracked and archived for it.
    pub cloning: Cloning,
}

impl Engine {
    /// The commits in their order.
    pub fn binlog(&self) -> &Binlog
        ensures { result.now.commits ≡ self.now.transactions.binlog }
    {
        self.transactions.binlog()
    }

    /// The drops of tables in their order.
    pub fn drops(&self) -> &Drops
        ensures { result.now.list ≡ self.now.transactions.drops }
    {
        self.transactions.drops()
    }

    /// The open transaction of this number, as the commit that it would be, or none where none is
    /// open.
    pub fn transaction(&self, trx: u32) -> Option<&Commit>
        ensures { option_copied result ≡ finite.get self.now.transactions.active trx }
    {
        self.transactions.transaction(trx)
    }

    /// The number that the next transaction gets: the least of which none is open, if there is one
    /// below 64.
    pub fn next_number(&self) -> Option<u32>
        ensures { result ≡ least_unused self.now.transactions.active }
    {
        self.transactions.next_number()
    }

    /// How many commits there are.
    pub fn look(&self) -> u64
        ensures { result ≡ length self.now.transactions.binlog }
    {
        self.transactions.binlog().len() as u64
    }

    /// The LSN behind the log's last byte.
    pub fn end(&self) -> u64
        ensures { result ≡ end_of self.now.buffer.ring }
    {
        self.buffer.end()
    }

    /// The number of the session that stands, or none where none does.
    pub fn session(&self) -> Option<u64>
        ensures { result ≡ option_map (λ (s : Session). s.number) self.now.cloning.session }
    {
        self.cloning.session()
    }

    /// The last stop, which outlives its session.
    pub fn stop(&self) -> Option<Stop>
        ensures { result ≡ self.now.cloning.stop }
    {
        self.cloning.last_stop()
    }

    /// Hands an order to the disk. The error is that memory ran out.
    pub fn order<D: PageDisk>(&self, order: DiskOrder, disk: &mut D) -> Result<(), AllocError>
        requires leaves { order ≢ Again }
        requires donor { IsDonor (over self.now (D.state disk.old)) }
        ensures disk { Orders order (D.state disk.old) (D.state disk.new) result }
        ensures acts { Acts act.Orders (over self.now (D.state disk.old))
            (over self.now (D.state disk.new)) }
    {
        let _ = &self.buffer;
        give_order(disk, order)
    }

    /// Gives the drops back.
    pub fn into_drops(self) -> Drops
        ensures { result.list ≡ self.transactions.drops }
    {
        self.transactions.into_drops()
    }

    /// What holds of every engine's parts.
    pub fn laws(&self)
        ensures few { length self.now.buffer.pool.frames < 2 ^ 32 }
        ensures safe { IsSafe self.now.transactions }
        ensures cloning { IsCloning self.now.cloning }
        ensures archive { ForSome self.now.cloning.archive IsArchived }
        ensures chunks { ForSome self.now.cloning.session
            (λ s. IsSnap s.snap.list s.snap.chunks s.snap.room) }
        ensures numbers { ForSome self.now.cloning.session
            (λ s. length s.snap.chunks < 2 ^ 32) }
    {
        self.transactions.laws();
        self.buffer.laws();
        self.cloning.laws();
        self.cloning.part_laws();
    }
}
