// A shelf and a report that count how often they are called.
ghost use Rattle.std.specs.Prelude.{◌≡◌};

use std::fmt::{self, Write};
use tex_shelf::{Report, Shelf, ShelfStop};

/// The number of times that each call of a shelf was made.
#[derive(Clone, Copy, Debug, PartialEq, Eq)]
pub struct CallCounts {
    pub opens: u32,
    pub creates: u32,
    pub takes: u32,
    pub puts: u32,
}

impl CallCounts {
    const NONE: CallCounts = CallCounts {
        opens: 0,
        creates: 0,
        takes: 0,
        puts: 0,
    };

    /// The number of calls.
    pub fn count(&self) -> u32 {
        let named = self.opens.saturating_add(self.creates);
        named.saturating_add(self.takes).saturating_add(self.puts)
    }
}

impl fmt::Display for CallCounts {
    fn fmt<W: Write>(&self, f: &mut fmt::Formatter<W>) -> fmt::Result {
        let CallCounts {
            opens,
            creates,
            takes,
            puts,
        } = *self;
        write!(
            f,
            "opens {opens}, creates {creates}, takes {takes}, puts {puts}"
        )
    }
}

/// A shelf whose calls are counted.
#[derive(Drop)]
pub struct CountingShelf<S: Drop> {
    pub inner: S,
    pub calls: CallCounts,
}

impl<S: Shelf + Drop> CountingShelf<S> {
    /// A shelf that wasn't called so far.
    pub fn new(inner: S) -> Self
        ensures { result.inner ≡ inner }
    {
        CountingShelf {
            inner,
            calls: CallCounts::NONE,
        }
    }
}

impl<S: Shelf + Drop> Shelf for CountingShelf<S> {
    ghost files = { λ s. S.files s.inner };

    ghost left = { λ s. S.left s.inner };

    ghost target = { λ s. S.target s.inner };

    ghost read_faults = { λ s. S.read_faults s.inner };

    ghost write_faults = { λ s. S.write_faults s.inner };

    ghost can_open = { λ s name. S.can_open s.inner name };

    ghost can_create = { λ s name. S.can_create s.inner name };

    ghost tells_left = { λ s told. S.tells_left s.inner told };

    fn open(&mut self, name: &str) -> Result<(), ShelfStop> {
        self.calls.opens = self.calls.opens.saturating_add(1);
        self.inner.open(name)
    }

    fn take(&mut self, into: &mut [u8]) -> Result<usize, ShelfStop> {
        self.calls.takes = self.calls.takes.saturating_add(1);
        self.inner.take(into)
    }

    fn create(&mut self, name: &str) -> Result<(), ShelfStop> {
        self.calls.creates = self.calls.creates.saturating_add(1);
        self.inner.create(name)
    }

    fn put(&mut self, piece: &[u8]) -> Result<usize, ShelfStop> {
        self.calls.puts = self.calls.puts.saturating_add(1);
        self.inner.put(piece)
    }
}

/// A report whose calls are counted.
#[derive(Drop)]
pub struct CountingReport<R: Drop> {
    pub inner: R,
    pub puts: u32,
}

impl<R: Report + Drop> CountingReport<R> {
    /// A report that wasn't called so far.
    pub fn new(inner: R) -> Self
        ensures { result.inner ≡ inner }
    {
        CountingReport { inner, puts: 0 }
    }
}

impl<R: Report + Drop> Report for CountingReport<R> {
    ghost written = { λ r. R.written r.inner };

    ghost faults = { λ r. R.faults r.inner };

    fn put(&mut self, text: &str) -> Result<(), ShelfStop> {
        self.puts = self.puts.saturating_add(1);
        self.inner.put(text)
    }
}
