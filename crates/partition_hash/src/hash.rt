// `hash52` of the standard. Additions and subtractions wrap at 32 bits.
ghost use Rattle.std.specs.Prelude.{◌≡◌, ◌<◌};
ghost use Rattle.astc_model.specs.Partitions.{hash52, half_hash, xor_right, xor_left, plus_left, minus_left};

#[inline]
fn xor_right(k: u32, p: u32) -> u32
    requires { k < 32 }
    ensures { result ≡ xor_right k p }
{
    p ^ (p >> k)
}

#[inline]
fn xor_left(k: u32, p: u32) -> u32
    requires { k < 32 }
    ensures { result ≡ xor_left k p }
{
    p ^ (p << k)
}

#[inline]
fn plus_left(k: u32, p: u32) -> u32
    requires { k < 32 }
    ensures { result ≡ plus_left k p }
{
    p.wrapping_add(p << k)
}

#[inline]
fn minus_left(k: u32, p: u32) -> u32
    requires { k < 32 }
    ensures { result ≡ minus_left k p }
{
    p.wrapping_sub(p << k)
}

/// The first five of the ten steps of `hash52`.
#[inline]
fn half_hash(p: u32) -> u32
    ensures { result ≡ half_hash p }
{
    xor_right(
        5,
        plus_left(4, plus_left(7, minus_left(17, xor_right(15, p)))),
    )
}

/// Returns the hash of `p`, the partition index plus 1024 times one less than the number of
/// partitions (Khronos Data Format Specification, ASTC, "Partition Pattern Generation").
#[tactic(auto, unfolding(astc_model::specs::Partitions::hash52))]
pub fn hash52(p: u32) -> u32
    ensures { result ≡ hash52 p }
{
    xor_right(
        17,
        xor_left(6, xor_right(3, xor_right(7, plus_left(16, half_hash(p))))),
    )
}
