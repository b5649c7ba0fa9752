//! The state of a donor: an engine over the disk that it holds, with what holds of every donor.
ghost use Rattle.std.specs.Prelude.{◌≡◌, ◌≢◌, ◌≤◌, ◌<◌, ◌^◌, IfErr, IfOk, None, is_some, length, option_copied, option_map};
ghost use Rattle.std.specs.FinMap as finite;
ghost use Rattle.std.specs.Option.{ForSome};
ghost use Rattle.clone_outside.specs.Disk.{ForTold, blank};
ghost use Rattle.clone_model.specs.Config.{IsConfig};
ghost use Rattle.clone_image.specs.Replay.{first_lsn};
ghost use Rattle.clone_archive.specs.Archived.{IsArchived};
ghost use Rattle.clone_ring.specs.Window.{end_of};
ghost use Rattle.clone_snapshot.specs.Snaps.{IsSnap};
ghost use Rattle.clone_plain.specs.Causes.{least_unused};
ghost use Rattle.clone_trx.specs.Kept.{IsSafe};
ghost use Rattle.clone_session.specs.Cloning.{IsCloning, Session};
ghost use Rattle.clone_engine.specs.Disks.{Visits};
ghost use Rattle.clone_outside.specs.DiskCalls.{Alters, Orders};
ghost use Rattle.clone_outside.specs.declared.disk.DiskOrder.TheVariants.{Again};
ghost use Rattle.clone_engine.specs.Engine.{IsEngine};
ghost use Rattle.clone_engine.specs.Opened.{IsNotEmpty, IsOpened};
ghost use Rattle.clone_engine.specs.declared.opening.OpenCause.TheVariants as causes;
ghost use Rattle.clone_engine.specs.Acts as act;
ghost use Rattle.clone_engine.specs.Acts.{Acts};
ghost use Rattle.clone_engine.specs.Donor.{IsDonor};
ghost use Rattle.clone_engine.specs.Over.{over};
ghost use Rattle.clone_engine.specs.Taken.{IsTaken, nothing};

use clone_engine::{Engine, OpenRefusal};
use clone_model::{Binlog, Commit, Config, Drops};
use clone_outside::{DiskOrder, PageDisk};
use clone_session::Stop;
use std::alloc::{AllocError, Global};
use std::marker::Model;

/// A donor over a disk, and the clone that it gives.
pub struct Donor<D: PageDisk> {
    pub(crate) engine: Engine,
    pub(crate) disk: D,
}

impl<D: PageDisk> Model for Donor<D> {
    ghost use Rattle.std.specs.Coded.{codes};
    ghost use Rattle.clone_track.specs.TrackedPages.{tracked_pages_code};
    ghost use Rattle.clone_engine.specs.Codes.{engine_code};
    ghost use Rattle.clone_engine.specs.Donor.{Donor, IsDonor};
    ghost use Rattle.clone_engine.specs.Over.{over};

    ghost Value = { Donor };

    ghost coded = { Prim.hlevel (codes, engine_code, tracked_pages_code) };

    ghost view = { λ d. over d.engine (D.state d.disk) };

    ghost invariant = { λ d. IsDonor (over d.engine (D.state d.disk)) };
}

impl<D: PageDisk> Donor<D> {
    /// A donor over an empty disk, which gives no clone yet. Opening makes the system space, and
    /// leaves the log's end at 8,213 and the checkpoint at 8,192. Refused where the disk holds a
    /// space or a mark, and where it fails.
    pub fn open(alloc: Global, disk: D, config: Config) -> Result<Donor<D>, OpenRefusal<D>>
        requires config { IsConfig config }
        ensures opened { IfOk result (λ d. IsOpened config d.engine) }
        ensures checkpoint { IfOk result (λ d. d.engine.flights.checkpoint ≡ first_lsn) }
        ensures idle { IfOk result (λ d. d.cloning.session ≡ None) }
        ensures stop { IfOk result (λ d. d.cloning.stop ≡ None) }
        ensures taken { IfOk result (λ d. IsTaken d nothing) }
        ensures empty { IfOk result (λ _. ForTold (D.state disk).told (λ m. m ≡ blank)) }
        ensures visits { IfOk result (λ d. Visits (D.state disk) d.engine.disk) }
        ensures not_empty { IfErr result (λ r. r.cause ≡ causes.NotEmpty
            → ForTold (D.state disk).told IsNotEmpty) }
        ensures refused { IfErr result (λ r. Alters (r.cause ≡ causes.DiskFault)
            (D.state disk) (D.state r.disk)) }
    {
        let mut disk = disk;
        match Engine::open(alloc, config, &mut disk) {
            Ok(engine) => Ok(Donor { engine, disk }),
            Err(cause) => Err(OpenRefusal { cause, disk }),
        }
    }

    /// The commits in their order.
    pub fn binlog(&self) -> &Binlog
        ensures { result.now.commits ≡ self.now.engine.donor.binlog }
    {
        self.engine.binlog()
    }

    /// The drops of tables in their order.
    pub fn drops(&self) -> &Drops
        ensures { result.now.list ≡ self.now.engine.donor.drops }
    {
        self.engine.drops()
    }

    /// The open transaction of this number, as the commit that it would be, or none where none is
    /// open.
    pub fn transaction(&self, trx: u32) -> Option<&Commit>
        ensures { option_copied result ≡ finite.get self.now.engine.donor.active trx }
    {
        self.engine.transaction(trx)
    }

    /// The number that the next transaction gets: the least of which none is open, if there is one
    /// below 64.
    pub fn next_number(&self) -> Option<u32>
        ensures { result ≡ least_unused self.now.engine.donor.active }
    {
        self.engine.next_number()
    }

    /// How many commits there are.
    pub fn look(&self) -> u64
        ensures { result ≡ length self.now.engine.donor.binlog }
    {
        self.engine.look()
    }

    /// The LSN behind the log's last byte.
    pub fn end(&self) -> u64
        ensures { result ≡ end_of self.now.engine.buffer.ring }
    {
        self.engine.end()
    }

    /// The number of the session that stands, or none where none does.
    pub fn session(&self) -> Option<u64>
        ensures { result ≡ option_map (λ (s : Session). s.number) self.now.cloning.session }
    {
        self.engine.session()
    }

    /// The last stop, which outlives its session.
    pub fn stop(&self) -> Option<Stop>
        ensures { result ≡ self.now.cloning.stop }
    {
        self.engine.stop()
    }

    /// Hands an order to the disk. The error is that memory ran out.
    pub fn order(&mut self, order: DiskOrder) -> Result<(), AllocError>
        requires { order ≢ Again }
        ensures disk { Orders order self.old.engine.disk self.new.engine.disk result }
        ensures acts { Acts act.Orders self.old self.new }
    {
        self.engine.order(order, &mut self.disk)
    }

    /// Gives the engine and its disk.
    pub fn into_parts(self) -> (Engine, D)
        ensures { over result.0 (D.state result.1) ≡ self }
    {
        let Donor { engine, disk } = self;
        (engine, disk)
    }

    /// Gives the disk back, and the drops.
    pub fn into_disk(self) -> (D, Drops)
        ensures disk { D.state result.0 ≡ self.engine.disk }
        ensures drops { result.1.list ≡ self.engine.donor.drops }
    {
        let Donor { engine, disk } = self;
        (disk, engine.into_drops())
    }

    /// What holds of every donor.
    pub fn laws(&self)
        ensures donor { IsDonor self.now }
        ensures engine { IsEngine self.now.engine }
        ensures few { length self.now.engine.buffer.pool.frames < 2 ^ 32 }
        ensures safe { IsSafe self.now.engine.donor }
        ensures cloning { IsCloning self.now.cloning }
        ensures archive { ForSome self.now.cloning.archive IsArchived }
        ensures chunks { ForSome self.now.cloning.session
            (λ s. IsSnap s.snap.list s.snap.chunks s.snap.room) }
        ensures numbers { ForSome self.now.cloning.session
            (λ s. length s.snap.chunks < 2 ^ 32) }
    {
        self.engine.laws();
    }
}
