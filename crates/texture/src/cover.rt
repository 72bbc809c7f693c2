// How many blocks cover an image.
ghost use Rattle.std.specs.Prelude.{◌≡◌, ◌≤◌, ◌+◌, ◌-◌, ◌/◌};

/// The number of units of this size, 1 to 12, that cover a length of 1 to 8192.
pub fn covering(length: u32, unit: u32) -> u32
    requires some { 1 ≤ length }
    requires short { length ≤ 8192 }
    requires unit_some { 1 ≤ unit }
    requires unit_small { unit ≤ 12 }
    ensures exact { result ≡ (length + unit - 1) / unit }
    ensures least { 1 ≤ result }
    ensures most { result ≤ length }
{
    (length + unit - 1) / unit
}
