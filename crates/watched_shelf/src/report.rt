// A report whose total is noted.
ghost use Rattle.std.specs.Prelude.{◌≡◌};

use std::cell::Cell;
use tex_shelf::{Report, ShelfStop};

/// A report around another, with the same effects and meanings, that notes the number of the last
/// line `total N`.
#[derive(Drop)]
pub struct NotedReport<'a, R: Drop> {
    report: R,
    total: &'a Cell<Option<u64>>,
}

impl<'a, R: Report + Drop> NotedReport<'a, R> {
    /// A noted report, whose totals go there.
    pub fn new(report: R, total: &'a Cell<Option<u64>>) -> Self
        ensures { result.report ≡ report }
    {
        NotedReport { report, total }
    }
}

// The number of a line `total N`.
fn total_in(line: &str) -> Option<u64> {
    let digits = line.strip_prefix("total ")?.strip_suffix('\n')?;
    digits.parse().ok()
}

impl<R: Report + Drop> Report for NotedReport<'_, R> {
    ghost written = { λ r. R.written r.report };

    ghost faults = { λ r. R.faults r.report };

    fn put(&mut self, text: &str) -> Result<(), ShelfStop> {
        self.report.put(text)?;
        if let Some(total) = total_in(text) {
            self.total.set(Some(total));
        }
        Ok(())
    }
}
