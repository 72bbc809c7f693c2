// Bytes that move from one buffer to another.
ghost use Rattle.std.specs.Prelude.{◌≡◌, ◌≤◌, length, take, drop};

/// Copies the first n bytes of one slice to the start of the other.
pub fn copy_front(from: &[u8], into: &mut [u8], n: usize)
    requires there { n ≤ length from.now }
    requires room { n ≤ length into.old }
    ensures bytes { take n into.new ≡ take n from.now }
    ensures places { drop n into.new ≡ drop n into.old }
{
    into[..n].copy_from_slice(&from[..n]);
}
