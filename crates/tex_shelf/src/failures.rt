// Which calls of an object in memory are to fail.
ghost use Rattle.std.specs.Prelude.{◌≡◌, ◌↔◌, [], ◌∷◌, ◌++◌, IsTrue, OnOk, OnErr, Contains};
ghost use Rattle.tex_shelf.specs.Faults.{raised};

use crate::NoMemory;
use std::alloc::Global;

/// The calls of an object in memory, counted, and those that are to fail.
#[derive(Drop)]
pub struct Failures {
    /// The number of calls so far.
    pub calls: u64,
    /// The numbers of the calls that fail. The first call is number 1.
    pub listed: Vec<u64>,
}

impl Failures {
    /// No call so far, and none that is to fail.
    pub fn new(alloc: Global) -> Self
        ensures calls { result.calls ≡ 0 }
        ensures listed { result.listed.items ≡ [] }
    {
        Failures {
            calls: 0,
            listed: Vec::new(alloc),
        }
    }

    /// Whether the next call is to fail.
    pub fn are_due(&self) -> bool
        ensures { IsTrue result ↔ Contains self.now.listed.items (raised self.now.calls) }
    {
        let next = self.calls.saturating_add(1);
        self.listed.contains(&next)
    }

    /// Lets the call of this number fail too.
    ///
    /// # Errors
    ///
    /// Out of memory. Then nothing has changed.
    pub fn add(&mut self, call: u32) -> Result<(), NoMemory>
        ensures ok { OnOk result (self.new.listed.items ≡ self.old.listed.items ++ call ∷ []) }
        ensures err { OnErr result (self.new.listed.items ≡ self.old.listed.items) }
        ensures calls { self.new.calls ≡ self.old.calls }
    {
        self.listed.push(u64::from(call))?;
        Ok(())
    }
}
