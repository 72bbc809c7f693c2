// Laws of the length by a header.
ghost use Rattle.std.specs.Prelude.{◌≡◌, ℕ, List, length};
ghost use Rattle.texture.specs.declared.shape.Shape.{Shape};
ghost use Rattle.ktx_file.specs.Files.{AreBlocks, ktx};
ghost use Rattle.watched_shelf.specs.Lengths.{file_length};

/// The file that is written of a shape and its blocks, whose key takes 28 bytes, has the length by
/// its shape.
pub fn lengths_are_those_of_files()
    ensures { (shape : Shape) (blocks : List (List ℕ)) → AreBlocks shape blocks
        → length (ktx shape blocks) ≡ file_length shape 28 }
{}
