// The digest of images.
ghost use Rattle.std.specs.Prelude.{◌≡◌};
ghost use Rattle.images.specs.Digests.{digest_start, with_byte, with_bytes, digest_of};

use crate::Images;

const START: u64 = 14_695_981_039_346_656_037;

const FACTOR: u64 = 1_099_511_628_211;

#[inline]
fn with_byte(digest: u64, byte: u8) -> u64
    ensures { result ≡ with_byte digest byte }
{
    (digest ^ u64::from(byte)).wrapping_mul(FACTOR)
}

fn with_bytes(digest: u64, bytes: &[u8]) -> u64
    ensures { result ≡ with_bytes digest bytes.now }
{
    let mut now = digest;
    for byte in bytes {
        now = with_byte(now, *byte);
    }
    now
}

/// The digest of the levels of a texture: FNV-1a with 64 bits over the bytes of their texels, red,
/// green, blue and alpha of each, level by level, image by image, and in rows from the top. The
/// digest is not a signature: other levels with the same digest are easily made.
pub fn digest_of(levels: &[Images]) -> u64
    ensures { result ≡ digest_of levels.now }
{
    let mut digest = START;
    for images in levels {
        digest = with_bytes(digest, images.raster());
    }
    digest
}
