// A law of legal blocks, for callers' proofs.
ghost use Rattle.astc_model.specs.Blocks.{Legal};
ghost use Rattle.astc_model.specs.declared.block.Block.{Block};
ghost use Rattle.astc_model.specs.Changes.{Changed};
ghost use Rattle.std.specs.Prelude.{ℕ};

/// States that a change of one integer of a legal block to another value in its range gives a legal
/// block. The function does nothing: its contract is the law.
pub fn changed_blocks_are_legal()
    ensures { (w h : ℕ) (block changed : Block) → Legal w h block → Changed block changed
        → Legal w h changed }
{}
