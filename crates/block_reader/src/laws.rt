// A law of the reader, for callers' proofs.
ghost use Rattle.astc_model.specs.Blocks.{Legal};
ghost use Rattle.astc_model.specs.declared.block.Block.{Block};
ghost use Rattle.astc_model.specs.Reading.{read};
ghost use Rattle.std.specs.Prelude.{◌≡◌, ℕ, List, Ok};

/// States that every block that the reader decodes is legal, for all sides of a block. The function
/// does nothing: its contract is the law.
pub fn blocks_read_are_legal()
    ensures { (w h : ℕ) (bytes : List ℕ) (block : Block) → read w h bytes ≡ Ok block
        → Legal w h block }
{}
