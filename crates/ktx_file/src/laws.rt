// Laws of the definitions of a file.
ghost use Rattle.std.specs.Prelude.{◌≡◌, ℕ, List, Ok};
ghost use Rattle.texture.specs.declared.shape.Shape.{Shape};
ghost use Rattle.texture.specs.Shapes.{IsValid};
ghost use Rattle.ktx_file.specs.Files.{AreBlocks, ktx, ktx_of};

/// The file of a valid shape and its blocks reads as that shape and those blocks.
pub fn files_read_back()
    ensures { (shape : Shape) (blocks : List (List ℕ)) → IsValid shape → AreBlocks shape blocks
        → ktx_of (ktx shape blocks) ≡ Ok (record { shape = shape; blocks = blocks }) }
{}
