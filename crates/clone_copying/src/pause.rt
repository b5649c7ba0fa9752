use std::sync::Wait;
use std::thread::Parker;
use std::time::Duration;

// In microseconds.
const SHORTEST: u64 = 20;

const LONGEST: u64 = 1_000;

/// How long a task sleeps that found nothing to do: longer each time, until it finds something.
#[derive(Clone, Copy, Drop)]
pub(crate) struct Pause {
    micros: u64,
}

impl Pause {
    pub(crate) fn shortest() -> Pause {
        Pause { micros: SHORTEST }
    }

    /// Sleeps for so long. The next pause is twice as long.
    pub(crate) fn sleep<H: Wait>(&mut self, rt: &H) {
        Parker::new().park_timeout(rt, Duration::from_micros(self.micros));
        self.micros = self.micros.saturating_mul(2).min(LONGEST);
    }
}
