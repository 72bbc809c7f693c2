// A report on standard output.
ghost use Rattle.std.specs.Prelude.{◌≡◌, None};

use crate::edge::{print_whole, stop_at};
use crate::{Report, ShelfStop};
use std::alloc::Global;
use std::marker::Model;

/// A report on standard output, whose written text is unknown.
#[derive(Drop)]
pub struct StreamReport<R: Print + Drop> {
    rt: R,
    faults: u64,
}

// The model is the count of faults.
impl<R: Print + Drop> Model for StreamReport<R> {
    ghost use Rattle.std.specs.Prelude.{ℕ};

    ghost Value = { ℕ };

    ghost view = { λ r. r.faults };
}

impl<R: Print + Drop> StreamReport<R> {
    /// A report that keeps this runtime.
    pub fn new(rt: R, _alloc: Global) -> Self
        ensures { result ≡ 0 }
    {
        StreamReport { rt, faults: 0 }
    }
}

impl<R: Print + Drop> Report for StreamReport<R> {
    ghost written = { λ r. None };

    ghost faults = { λ r. r };

    /// After a failure, a prefix of the text may be written.
    fn put(&mut self, text: &str) -> Result<(), ShelfStop> {
        match print_whole(&self.rt, text.as_bytes()) {
            Ok(()) => Ok(()),
            Err(error) => Err(stop_at(&error, &mut self.faults)),
        }
    }
}
