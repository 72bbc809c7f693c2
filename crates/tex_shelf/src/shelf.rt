// The input and the output of a program.
ghost use Rattle.std.specs.Prelude.{◌≡◌, ◌<◌, ◌≤◌, ℕ, List, [], Option, length, take, drop, is_some, IsSome, IfOk, OnOk, OnErr};
ghost use Rattle.tex_shelf.specs.Files.{Files, file_under, with_file, with_more, with_front, emptied};
ghost use Rattle.tex_shelf.specs.Faults.{Counts};

use crate::ShelfStop;

/// A place of named files. One file at a time is read from its start, and one is written at its
/// end.
pub trait Shelf {
    /// The files, if the shelf knows them.
    ghost files: { Self → Option Files };

    /// The rest of the opened input, if the shelf knows it.
    ghost left: { Self → Option (List ℕ) };

    /// The name of the created output, or none.
    ghost target: { Self → Option (List ℕ) };

    /// The number of times that an `open` or a `take` failed.
    ghost read_faults: { Self → ℕ };

    /// The number of times that a `create` or a `put` failed.
    ghost write_faults: { Self → ℕ };

    /// Which names may be opened.
    ghost can_open: { Self → List ℕ → Type 0 };

    /// Which names may be created.
    ghost can_create: { Self → List ℕ → Type 0 };

    /// Opens a file as the input. A name without a file is a fault.
    ///
    /// # Errors
    ///
    /// `Failed` if `read_faults` rose, and `NoMemory`. The input is then as before.
    fn open(&mut self, name: &str) -> Result<(), ShelfStop>
        requires { can_open self.old name.now }
        ensures opened { OnOk result (IsSome (files self.old) → left self.new
            ≡ file_under (files self.old) name.now) }
        ensures refused { OnErr result (left self.new ≡ left self.old) }
        ensures told { is_some (left self.new) ≡ is_some (left self.old) }
        ensures files { files self.new ≡ files self.old }
        ensures target { target self.new ≡ target self.old }
        ensures counts { Counts (read_faults self.old) (read_faults self.new)
            (write_faults self.old) (write_faults self.new) result }
        ensures can_open { (n : List ℕ) → can_open self.old n → can_open self.new n }
        ensures can_create { (n : List ℕ) → can_create self.old n → can_create self.new n };

    /// Moves bytes from the start of the input into the first places of `into`, and returns their
    /// number. If `into` has places, the number is 0 only at the end of the input.
    ///
    /// # Errors
    ///
    /// `Failed` if `read_faults` rose, and `NoMemory`. The input is then as before.
    fn take(&mut self, into: &mut [u8]) -> Result<usize, ShelfStop>
        ensures within { IfOk result (λ n. n ≤ length into.old) }
        ensures bytes { IfOk result (λ n. left self.old ≡ with_front (take n into.new)
            (left self.new)) }
        ensures places { IfOk result (λ n. drop n into.new ≡ drop n into.old) }
        ensures ended { IfOk result (λ n. 0 < length into.old → n ≡ 0 → left self.old
            ≡ emptied (left self.old)) }
        ensures refused { OnErr result (left self.new ≡ left self.old) }
        ensures files { files self.new ≡ files self.old }
        ensures target { target self.new ≡ target self.old }
        ensures counts { Counts (read_faults self.old) (read_faults self.new)
            (write_faults self.old) (write_faults self.new) result }
        ensures can_open { (n : List ℕ) → can_open self.old n → can_open self.new n }
        ensures can_create { (n : List ℕ) → can_create self.old n → can_create self.new n };

    /// Makes the file of this name empty, makes it the target, and closes the input.
    ///
    /// # Errors
    ///
    /// `Failed` if `write_faults` rose, and `NoMemory`. Files, target and input are then as before.
    fn create(&mut self, name: &str) -> Result<(), ShelfStop>
        requires { can_create self.old name.now }
        ensures created { OnOk result (files self.new ≡ with_file (files self.old) name.now []) }
        ensures becomes_target { OnOk result (target self.new ≡ Some name.now) }
        ensures closed { OnOk result (left self.new ≡ emptied (left self.old)) }
        ensures refused_files { OnErr result (files self.new ≡ files self.old) }
        ensures refused_target { OnErr result (target self.new ≡ target self.old) }
        ensures refused_left { OnErr result (left self.new ≡ left self.old) }
        ensures counts { Counts (write_faults self.old) (write_faults self.new)
            (read_faults self.old) (read_faults self.new) result }
        ensures can_open { (n : List ℕ) → can_open self.old n → can_open self.new n }
        ensures can_create { (n : List ℕ) → can_create self.old n → can_create self.new n };

    /// Appends the first bytes of `piece` to the target, and returns their number: at least 1
    /// unless the piece is empty.
    ///
    /// # Errors
    ///
    /// `Failed` if `write_faults` rose, and `NoMemory`. The files are then as before.
    fn put(&mut self, piece: &[u8]) -> Result<usize, ShelfStop>
        requires { IsSome (target self.old) }
        ensures within { IfOk result (λ n. n ≤ length piece.now) }
        ensures some { IfOk result (λ n. 0 < length piece.now → 0 < n) }
        ensures bytes { IfOk result (λ n. files self.new
            ≡ with_more (files self.old) (target self.old) (take n piece.now)) }
        ensures refused { OnErr result (files self.new ≡ files self.old) }
        ensures left { left self.new ≡ left self.old }
        ensures target { target self.new ≡ target self.old }
        ensures counts { Counts (write_faults self.old) (write_faults self.new)
            (read_faults self.old) (read_faults self.new) result }
        ensures can_open { (n : List ℕ) → can_open self.old n → can_open self.new n }
        ensures can_create { (n : List ℕ) → can_create self.old n → can_create self.new n };

    /// A shelf that knows its files also knows the rest of the input.
    ghost tells_left: { (shelf : Self) → IsSome (files shelf) → IsSome (left shelf) };
}
