// A block with one integer at another value.
ghost use Rattle.std.specs.Prelude.{◌≡◌, ◌<◌, length};
ghost use Rattle.error_tables.specs.Changed.{with_weight, with_colour};

use astc_model::Coded;

/// The block with a weight integer at another value.
pub fn with_weight(block: &Coded, i: u8, value: u8) -> Coded
    requires { i < length block.now.weights.items }
    ensures { result ≡ with_weight block.now i value }
{
    let mut changed = block.copy();
    changed.weights[usize::from(i)] = value;
    changed
}

/// The block with a colour integer at another value.
pub fn with_colour(block: &Coded, i: u8, value: u8) -> Coded
    requires { i < length block.now.colours.items }
    ensures { result ≡ with_colour block.now i value }
{
    let mut changed = block.copy();
    changed.colours[usize::from(i)] = value;
    changed
}
