// A line on standard error.
use crate::{RestEstimate, Watcher};
use std::rt::Clock;
use std::time::Instant;

/// The least milliseconds between two writings of the line.
const INTERVAL: u64 = 100;

/// The interval if the length of the whole output is unknown.
const LONG_INTERVAL: u64 = 1000;

/// A line on standard error that is rewritten, ten times per second at most, until the output is
/// whole and a line feed ends it. If the length of the whole output is unknown, each second has its
/// line: a report may come at any time, and would be written into an open one. If the clock fails,
/// every 64th `tell` writes. A failure to write has no effect.
#[derive(Drop)]
pub struct StandardErrorLine<R: Eprint + Clock + Drop> {
    rt: R,
    /// The time of the first call of the watcher.
    begun: Option<Instant>,
    /// The milliseconds from then on after which something was written last.
    written: u64,
    /// The number of times that the clock failed.
    clock_failures: u8,
    /// Whether the line has no line feed so far.
    is_open: bool,
}

impl<R: Eprint + Clock + Drop> StandardErrorLine<R> {
    /// A line that keeps this runtime, with nothing written so far.
    pub fn new(rt: R) -> Self {
        StandardErrorLine {
            rt,
            begun: None,
            written: 0,
            clock_failures: 0,
            is_open: false,
        }
    }

    // The milliseconds since the first call, if the clock measures them.
    fn millis(&mut self) -> Option<u64> {
        let now = Instant::now(&self.rt).ok()?;
        match self.begun {
            Some(begun) => u64::try_from(now.duration_since(begun).as_millis()).ok(),
            None => {
                self.begun = Some(now);
                Some(0)
            }
        }
    }

    // Whether it is to be written now, so long after it was written last.
    fn is_due(&mut self, millis: Option<u64>, interval: u64) -> bool {
        match millis {
            Some(now) if now < self.written.saturating_add(interval) => false,
            Some(now) => {
                self.written = now;
                true
            }
            None => {
                self.clock_failures = self.clock_failures.wrapping_add(1);
                self.clock_failures % 64 == 0
            }
        }
    }

    // The sequence before the end removes the rest of a longer line.
    fn write(&self, estimate: RestEstimate, end: char) {
        let _ = eprint!(&self.rt; "astc_tool: {estimate}\x1b[K{end}");
    }
}

impl<R: Eprint + Clock + Drop> Watcher for StandardErrorLine<R> {
    fn tell(&mut self, stands: u64, whole: Option<u64>) {
        let millis = self.millis();
        let (interval, end) = match whole {
            Some(_) => (INTERVAL, '\r'),
            None => (LONG_INTERVAL, '\n'),
        };
        if self.is_due(millis, interval) {
            let estimate = RestEstimate {
                stands,
                whole,
                millis,
            };
            self.write(estimate, end);
            self.is_open = whole.is_some();
        }
        if whole == Some(stands) {
            self.finish(stands, whole);
        }
    }

    // If the output is whole, the last `tell` ended its line.
    fn finish(&mut self, stands: u64, whole: Option<u64>) {
        if self.is_open {
            let estimate = RestEstimate {
                stands,
                whole,
                millis: None,
            };
            self.write(estimate, '\n');
            self.is_open = false;
        }
    }
}
