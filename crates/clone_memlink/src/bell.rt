use std::sync::Wait;
use std::sync::atomic::{AtomicU64, Ordering};

/// What a thread sleeps on until another one rings. Who rings calls the system only where somebody
/// listens.
#[derive(Drop)]
pub(crate) struct Bell {
    rung: AtomicU64,
    listeners: AtomicU64,
}

impl Bell {
    pub(crate) fn new() -> Bell {
        Bell {
            rung: AtomicU64::new(0),
            listeners: AtomicU64::new(0),
        }
    }

    /// From here on this thread listens: it hears each later ring.
    pub(crate) fn enter(&self) {
        self.listeners.fetch_add(1, Ordering::SeqCst);
    }

    pub(crate) fn leave(&self) {
        self.listeners.fetch_sub(1, Ordering::SeqCst);
    }

    /// How often it was rung.
    pub(crate) fn rung(&self) -> u64 {
        self.rung.load(Ordering::SeqCst)
    }

    /// Sleeps while it was rung so often. It may return for no reason.
    pub(crate) fn sleep<R: Wait>(&self, rt: &R, rung: u64) {
        self.rung.park(rt, (rung & 0xffff_ffff) as u32);
    }

    /// Wakes who listens.
    pub(crate) fn ring(&self) {
        if self.listeners.load(Ordering::SeqCst) != 0 {
            self.rung.fetch_add(1, Ordering::SeqCst);
            self.rung.wake_all();
        }
    }
}
