// The output for the text of a program.
ghost use Rattle.std.specs.Prelude.{◌≡◌, ℕ, List, Option, OnOk, OnErr};
ghost use Rattle.tex_shelf.specs.Files.{with_text};
ghost use Rattle.tex_shelf.specs.Faults.{Causes};

use crate::ShelfStop;

/// A text that grows at its end.
pub trait Report {
    /// The written bytes, if the report knows them.
    ghost written: { Self → Option (List ℕ) };

    /// The number of times that a `put` failed.
    ghost faults: { Self → ℕ };

    /// Writes the text at the end.
    ///
    /// # Errors
    ///
    /// `Failed` if `faults` rose, and `NoMemory`. The written text is then as before.
    fn put(&mut self, text: &str) -> Result<(), ShelfStop>
        ensures appended { OnOk result (written self.new ≡ with_text (written self.old) text.now) }
        ensures refused { OnErr result (written self.new ≡ written self.old) }
        ensures counts { Causes (faults self.old) (faults self.new) result };
}
