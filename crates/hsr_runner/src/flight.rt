//! How many copies are on their way.
use std::sync::Wait;
use std::sync::atomic::{AtomicU64, Ordering};
use std::thread::Parker;

// One word for the count and for "stop", so that the main worker waits for both at once. Links hold 2^20 copies at most.
/// Added to the count where a worker gives up, and at the main worker's end: a count of as much or more says "stop".
const STOP: u64 = 1 << 48;

/// The count of copies on their way, and the main worker, which waits for there to be none. Only waiting rests on it.
#[derive(Drop)]
pub(crate) struct Flight {
    count: AtomicU64,
    main: Parker,
}

impl Flight {
    /// No copy is on its way.
    pub(crate) fn new() -> Flight {
        Flight {
            count: AtomicU64::new(0),
            main: Parker::new(),
        }
    }

    /// One more copy is on its way.
    pub(crate) fn rise(&self) {
        self.count.fetch_add(1, Ordering::SeqCst);
    }

    /// This number of copies is no longer on its way.
    pub(crate) fn fall(&self, copies: u64) {
        // Only who takes the last copy wakes the main worker.
        if self.count.fetch_sub(copies, Ordering::SeqCst) == copies {
            self.main.unpark();
        }
    }

    /// Says "stop".
    pub(crate) fn stop(&self) {
        self.count.fetch_add(STOP, Ordering::SeqCst);
        self.main.unpark();
    }

    /// Whether "stop" was said.
    pub(crate) fn is_stopped(&self) -> bool {
        self.count.load(Ordering::SeqCst) >= STOP
    }

    /// Waits until no copy is on its way or "stop" was said, and tells whether it wasn't. Only the main worker may wait here.
    pub(crate) fn settles(&self, rt: &impl Wait) -> bool {
        // A parker may wake without a cause, so the count is looked at each time.
        for _ in rt.forever() {
            let count = self.count.load(Ordering::SeqCst);
            if count >= STOP {
                return false;
            }
            if count == 0 {
                return true;
            }
            self.main.park(rt);
        }
        unreachable!()
    }
}
