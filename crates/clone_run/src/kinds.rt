//! The disks, the connections and the jobs of a run. Each disk and each net is in memory or a real
//! one; a thread gets what is made of these types, of which it is known that it may go there.
use clone_jobs::{UpkeepJob, WriterJob};
use clone_memdisk::MemDisk;
use clone_memlink::{MemEnd, MemNet};
use clone_real::{AnyDisk, AnyEnd, AnyNet, FileDisk, SocketEnd, SocketNet};
use clone_task_jobs::{FetchJob, FetchJobEnd, ServeJob, ServeJobEnd};

/// A disk of a run: in memory, or in a directory.
pub type RunDisk = AnyDisk<MemDisk, FileDisk>;

/// What makes the connections of a run: in memory, or over sockets.
pub type RunNet<H> = AnyNet<MemNet<H>, SocketNet>;

/// An end of such a connection.
pub type RunLink<H> = AnyEnd<MemEnd<H>, SocketEnd>;

/// A writer of a run.
pub(crate) type RunWriter<G, H> = WriterJob<RunDisk, G, H>;

/// A job of a run that keeps the donor going.
pub(crate) type RunUpkeep<G, H> = UpkeepJob<RunDisk, G, H>;

/// A job of a run that serves.
pub(crate) type RunServe<G, H> = ServeJob<RunDisk, RunNet<H>, G, H>;

/// What such a job hands back.
pub(crate) type RunServeEnd<H> = ServeJobEnd<RunDisk, RunNet<H>>;

/// A job of a run that fetches.
pub(crate) type RunFetch<G, H> = FetchJob<RunDisk, RunDisk, RunNet<H>, G, H>;

/// What such a job hands back.
pub(crate) type RunFetchEnd<H> = FetchJobEnd<RunDisk, RunDisk, RunNet<H>>;
