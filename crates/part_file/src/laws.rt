// Laws of the definitions of a part file.
ghost use Rattle.std.specs.Prelude.{◌≡◌, ◌≤◌, ◌<◌, ◌+◌, ◌^◌, ℕ, List, Ok, length};
ghost use Rattle.astc_model.specs.Sums.{sum_to};
ghost use Rattle.texture.specs.declared.shape.Shape.{Shape};
ghost use Rattle.texture.specs.Shapes.{all_blocks};
ghost use Rattle.part_file.specs.Ranges.{part_start, part_count};
ghost use Rattle.part_file.specs.Pieces.{piece_of, block_of, error_of};
ghost use Rattle.part_file.specs.Files.{PartFile, IsPart, part_bytes, part_of};

/// The file of a part reads as that part.
pub fn parts_read_back()
    ensures { (part : PartFile) → IsPart part → part_of (part_bytes part) ≡ Ok part }
{}

/// A piece has the block and the error that it was made of.
pub fn pieces_read_back()
    ensures block { (block : List ℕ) (error : ℕ) → length block ≡ 16
        → block_of (piece_of block error) ≡ block }
    ensures error { (block : List ℕ) (error : ℕ) → length block ≡ 16 → error < 2 ^ 32
        → error_of (piece_of block error) ≡ error }
{}

/// The parts of a file are adjacent, from its first block to its end, so that the parts before a
/// place have all blocks before its first.
pub fn parts_meet()
    ensures first { (shape : Shape) (count : ℕ) → part_start shape 0 count ≡ 0 }
    ensures meets { (shape : Shape) (place count : ℕ)
        → part_start shape place count + part_count shape place count
        ≡ part_start shape (place + 1) count }
    ensures last { (shape : Shape) (count : ℕ) → 1 ≤ count → part_start shape count count
        ≡ all_blocks shape }
    ensures together { (shape : Shape) (place count : ℕ)
        → sum_to (λ before. part_count shape before count) place
        ≡ part_start shape place count }
{}
