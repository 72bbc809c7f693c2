// Packs fields into a number.
ghost use Rattle.std.specs.Prelude.{◌≡◌, ◌<◌, ◌≤◌};
ghost use Rattle.std.specs.List.{AllByRecursion};
ghost use Rattle.astc_model.specs.Packing.{packed, total_width, AllFit};

// Packs fields of these widths in bits and these values into a number, the first field at bit 0.
// The widths have a sum of at most 128.
pub(crate) fn packed(widths: &[u32], values: &[u128]) -> u128
    requires fit { AllFit widths.now values.now }
    requires narrow { AllByRecursion (λ width. width < 128) widths.now }
    requires room { total_width widths.now ≤ 128 }
    ensures { result ≡ packed widths.now values.now }
{
    match widths {
        [width, rest @ ..] => (packed(rest, &values[1..]) << *width) + values[0],
        _ => 0,
    }
}
