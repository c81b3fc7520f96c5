//! When a search begins anew.

/// How many conflicts there are before the first restart.
const FIRST_INTERVAL: u32 = 100;

/// How many conflicts there are until the next restart, and from one restart to the next.
#[derive(Clone, Copy, Debug)]
pub struct Restarts {
    left: u32,
    interval: u32,
}

impl Restarts {
    /// Before the first conflict.
    pub fn new() -> Restarts {
        Restarts {
            left: FIRST_INTERVAL,
            interval: FIRST_INTERVAL,
        }
    }

    /// Counts a conflict; the answer is whether a restart is due. Each interval is one and a half times the last.
    pub fn count(&mut self) -> bool {
        self.left = self.left.saturating_sub(1);
        if self.left > 0 {
            return false;
        }
        self.interval = self.interval.saturating_add(self.interval / 2);
        self.left = self.interval;
        true
    }
}
