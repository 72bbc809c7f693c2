// Laws of the definitions of a file.
ghost use Rattle.std.specs.Prelude.{◌≡◌, ℕ, List, Ok};
ghost use Rattle.astc_model.specs.declared.footprint_name.FootprintName.{FootprintName};
ghost use Rattle.astc_file.specs.Counting.{AreFileSides, block_count};
ghost use Rattle.tex_shelf.specs.Pieces.{ArePieces};
ghost use Rattle.astc_file.specs.Files.{astc, astc_of};

/// The file of a valid image reads as that image.
pub fn astc_reads_back()
    ensures { (name : FootprintName) (width height : ℕ) (blocks : List (List ℕ))
        → AreFileSides width height → ArePieces 16 (block_count name width height) blocks
        → astc_of (astc name width height blocks)
        ≡ Ok (record { name = name; width = width; height = height; blocks = blocks }) }
{}
