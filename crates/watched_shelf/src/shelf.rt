// A shelf that reports the growth of its output to a watcher.
ghost use Rattle.std.specs.Prelude.{◌≡◌};

use crate::Watcher;
use crate::growth::Growth;
use std::marker::Model;
use tex_shelf::{Shelf, ShelfStop};

/// A shelf around another, with the same effects and meanings, that reports each put piece to a
/// watcher.
#[derive(Drop)]
pub struct WatchedShelf<S: Drop, W: Drop> {
    shelf: S,
    watcher: W,
    output: Growth,
}

// The model is that of the inner shelf.
impl<S: Drop, W: Drop> Model for WatchedShelf<S, W> {
    ghost Value = { S };

    ghost view = { λ s. s.shelf };
}

impl<S: Shelf + Drop, W: Watcher> WatchedShelf<S, W> {
    /// A watched shelf without a report to its watcher so far.
    pub fn new(shelf: S, watcher: W) -> Self
        ensures { result ≡ shelf }
    {
        WatchedShelf {
            shelf,
            watcher,
            output: Growth::new(),
        }
    }

    /// Tells the watcher that the output grows no more.
    pub fn finish(&mut self)
        ensures { self.new ≡ self.old }
    {
        let whole = self.output.whole();
        self.watcher.finish(self.output.stands, whole);
    }

    /// The shelf and the watcher, each for itself.
    pub fn into_parts(self) -> (S, W)
        ensures { result.0 ≡ self }
    {
        (self.shelf, self.watcher)
    }
}

impl<S: Shelf + Drop, W: Watcher> Shelf for WatchedShelf<S, W> {
    ghost files = { λ s. S.files s };

    ghost left = { λ s. S.left s };

    ghost target = { λ s. S.target s };

    ghost read_faults = { λ s. S.read_faults s };

    ghost write_faults = { λ s. S.write_faults s };

    ghost can_open = { λ s name. S.can_open s name };

    ghost can_create = { λ s name. S.can_create s name };

    ghost tells_left = { λ s told. S.tells_left s told };

    fn open(&mut self, name: &str) -> Result<(), ShelfStop> {
        self.shelf.open(name)
    }

    fn take(&mut self, into: &mut [u8]) -> Result<usize, ShelfStop> {
        self.shelf.take(into)
    }

    fn create(&mut self, name: &str) -> Result<(), ShelfStop> {
        self.shelf.create(name)?;
        self.output = Growth::new();
        Ok(())
    }

    fn put(&mut self, piece: &[u8]) -> Result<usize, ShelfStop> {
        let n = self.shelf.put(piece)?;
        self.output.grow(&piece[..n]);
        let whole = self.output.whole();
        self.watcher.tell(self.output.stands, whole);
        Ok(n)
    }
}
