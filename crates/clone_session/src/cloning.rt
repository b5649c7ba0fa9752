//! What a donor keeps of the clone that it gives. Pages are tracked exactly while files are copied,
//! and an archive stands exactly from the copy of pages on. Then the map of chunks has room for a
//! copy of redo that ends a ring's size after what is archived, so that the stop takes no memory.
ghost use Rattle.std.specs.Prelude.{◌≡◌, ◌≤◌, ◌<◌, ◌^◌, None, length, option_map};
ghost use Rattle.clone_model.specs.declared.config.TheConstants.{MOST_RING};
ghost use Rattle.std.specs.Option.{ForSome};
ghost use Rattle.clone_archive.specs.Archived as archived;
ghost use Rattle.clone_archive.specs.Archived.{IsArchived};
ghost use Rattle.clone_snapshot.specs.Snaps.{IsSnap};
ghost use Rattle.clone_session.specs.Cloning.{IsCloning};

use crate::info::Stop;
use crate::session::Session;
use clone_archive::Archive;
use clone_track::Tracker;
use std::alloc::Global;
use std::marker::Model;

/// The session that stands, if one does, the pages that are tracked and the redo that is archived
/// for it, and the last stop.
#[derive(Drop)]
pub struct Cloning {
    pub(crate) session: Option<Session>,
    pub(crate) tracker: Tracker,
    pub(crate) archive: Archive,
    pub(crate) stop: Option<Stop>,
    pub(crate) ring: u64,
}

impl Model for Cloning {
    ghost use Rattle.clone_session.specs.Cloning.{Cloning, IsCloning};
    ghost use Rattle.std.specs.Coded.{codes};
    ghost use Rattle.clone_track.specs.TrackedPages.{tracked_pages_code};

    ghost Value = { Cloning };

    ghost coded = { Prim.hlevel (codes, tracked_pages_code) };

    ghost view = { λ c. record {
      session = c.session;
      tracking = c.tracker;
      archive = c.archive;
      stop = c.stop;
      ring = c.ring;
    } };

    ghost invariant = { λ c. IsCloning (record {
      session = c.session;
      tracking = c.tracker;
      archive = c.archive;
      stop = c.stop;
      ring = c.ring;
    }) };
}

impl Cloning {
    /// No session, over a ring of so many bytes. This takes no memory.
    pub fn new(alloc: Global, ring: u64) -> Cloning
        requires { ring ≤ MOST_RING }
        ensures session { result.session ≡ None }
        ensures tracking { result.tracking.pages ≡ None }
        ensures archive { result.archive ≡ None }
        ensures stop { result.stop ≡ None }
        ensures ring { result.ring ≡ ring }
    {
        Cloning {
            session: None,
            tracker: Tracker::new(alloc),
            archive: Archive::new(alloc),
            stop: None,
            ring,
        }
    }

    /// The number of the session that stands, or none where none does.
    pub fn session(&self) -> Option<u64>
        ensures { result ≡ option_map (λ s. s.number) self.now.session }
    {
        self.session.as_ref().map(|session| session.number)
    }

    /// The last stop, which outlives its session.
    pub fn last_stop(&self) -> Option<Stop>
        ensures { result ≡ self.now.stop }
    {
        self.stop
    }

    /// The LSN up to which the redo is archived, or none where no archive stands.
    pub fn archived(&self) -> Option<u64>
        ensures { result ≡ option_map archived.archived_of self.now.archive }
    {
        self.archive.archived()
    }

    /// The LSN from which the log has to be kept for the archive, or none where it needs no more.
    pub fn kept_from(&self) -> Option<u64>
        ensures { result ≡ archived.kept_from self.now.archive }
    {
        self.archive.kept_from()
    }

    /// What holds of every clone.
    pub fn laws(&self)
        ensures { IsCloning self.now }
    {
        let _ = &self.session;
    }

    /// What holds of the archive and of the chunks of every clone.
    pub fn part_laws(&self)
        ensures archive { ForSome self.now.archive IsArchived }
        ensures chunks { ForSome self.now.session
            (λ s. IsSnap s.snap.list s.snap.chunks s.snap.room) }
        ensures numbers { ForSome self.now.session (λ s. length s.snap.chunks < 2 ^ 32) }
    {
        self.archive.laws();
        if let Some(session) = &self.session {
            session.snapshot.laws();
            let _ = session.snapshot.count();
        }
    }
}
