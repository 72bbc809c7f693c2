// A report in memory, for tests and for work that is thrown away.
ghost use Rattle.std.specs.Prelude.{◌≡◌, ◌↔◌, [], ◌∷◌, ◌++◌, OnOk, OnErr, IsErrOf, Contains, Some, refl};
ghost use Rattle.tex_shelf.specs.Faults.{raised, Causes};
ghost use Rattle.tex_shelf.specs.Files.{with_text};
ghost use Rattle.tex_shelf.specs.States.{printed, refused};

use crate::failures::Failures;
use crate::{NoMemory, Report, ShelfStop};
use std::alloc::Global;
use std::marker::Model;

/// A report that keeps its text and fails at chosen calls.
#[derive(Drop)]
pub struct MemoryReport {
    text: String,
    faults: u64,
    failures: Failures,
}

impl Model for MemoryReport {
    ghost use Rattle.tex_shelf.specs.States.{ReportState};
    ghost use Rattle.std.specs.Prelude.{string_bytes};

    ghost Value = { ReportState };

    ghost view = { λ r. record {
      text = string_bytes r.text;
      faults = r.faults;
      calls = r.failures.calls;
      failing = r.failures.listed.items;
    } };
}

impl MemoryReport {
    /// A report with no text.
    pub fn new(alloc: Global) -> Self
        ensures { result ≡ record { text = []; faults = 0; calls = 0; failing = [] } }
    {
        MemoryReport {
            text: String::new(alloc),
            faults: 0,
            failures: Failures::new(alloc),
        }
    }

    /// Makes the call of this number fail. Calls of [`Report`] are numbered from 1.
    ///
    /// # Errors
    ///
    /// `NoMemory`, and then nothing has changed.
    pub fn fail_at(&mut self, call: u32) -> Result<(), NoMemory>
        ensures ok { OnOk result
            (self.new ≡ record self.old { failing = self.old.failing ++ call ∷ [] }) }
        ensures err { OnErr result (self.new ≡ self.old) }
    {
        self.failures.add(call)
    }

    /// The written text.
    pub fn text(&self) -> &str
        ensures { result.now ≡ self.now.text }
    {
        self.text.as_str()
    }
}

impl Report for MemoryReport {
    ghost written = { λ r. Some r.text };

    ghost faults = { λ r. r.faults };

    /// `Failed` is the result exactly at the calls that `fail_at` named.
    fn put(&mut self, text: &str) -> Result<(), ShelfStop>
        ensures failed { IsErrOf result ShelfStop.Failed ↔ Contains self.old.failing
            (raised self.old.calls) }
        ensures ok { OnOk result (self.new ≡ printed self.old text.now) }
        ensures counted { IsErrOf result ShelfStop.Failed → self.new ≡ refused self.old }
        ensures unchanged { IsErrOf result ShelfStop.NoMemory → self.new ≡ self.old }
        ensures counts { Causes self.old.faults self.new.faults result }
    {
        let next = self.failures.calls.saturating_add(1);
        if self.failures.are_due() {
            self.faults = self.faults.saturating_add(1);
            self.failures.calls = next;
            return Err(ShelfStop::Failed);
        }
        self.text.push_str(text)?;
        self.failures.calls = next;
        Ok(())
    }
}
