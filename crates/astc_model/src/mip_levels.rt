// The sizes of mip levels.
ghost use Rattle.std.specs.Prelude.{◌≡◌, ◌≤◌, ◌<◌};
ghost use Rattle.astc_model.specs.Chains.{side_at_level, full_levels_of};

/// Returns the width or height of a mip level whose level 0 has `side` texels: halved once per
/// level, rounded down, and at least 1.
pub fn side_at_level(side: u32, level: u32) -> u32
    requires { level < 32 }
    ensures { result ≡ side_at_level side level }
{
    (side >> level).max(1)
}

/// Returns the number of mip levels from an image of `width` by `height` texels down to 1 by 1, at
/// most 14.
pub fn full_levels(width: u32, height: u32) -> u32
    requires width_some { 1 ≤ width }
    requires width_most { width ≤ 8192 }
    requires height_some { 1 ≤ height }
    requires height_most { height ≤ 8192 }
    ensures exact { result ≡ full_levels_of width height }
    ensures some { 1 ≤ result }
    ensures most { result ≤ 14 }
{
    width.max(height).ilog2() + 1
}
