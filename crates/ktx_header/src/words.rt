// The words of a header.
ghost use Rattle.std.specs.Prelude.{◌≡◌, ◌≤◌, ◌+◌, length, drop};
ghost use Rattle.ktx_header.specs.Orders.{number};
ghost use Rattle.ktx_header.specs.Words.{identifier, first_difference, identified, order_of, long_enough, words_in, words_of};

use crate::{HeaderFault, WordOrder, word};

static IDENTIFIER: [u8; 12] = [
    0xAB, 0x4B, 0x54, 0x58, 0x20, 0x31, 0x31, 0xBB, 0x0D, 0x0A, 0x1A, 0x0A,
];

/// The words of a header that are read, and their order.
#[derive(Clone, Copy, Debug, PartialEq, Eq)]
pub struct HeaderWords {
    pub order: WordOrder,
    /// glType
    pub kind: u32,
    /// glFormat
    pub format: u32,
    /// glInternalFormat
    pub internal: u32,
    /// pixelWidth
    pub width: u32,
    /// pixelHeight
    pub height: u32,
    /// pixelDepth
    pub depth: u32,
    /// numberOfArrayElements
    pub elements: u32,
    /// numberOfFaces
    pub faces: u32,
    /// numberOfMipmapLevels
    pub levels: u32,
    /// bytesOfKeyValueData
    pub key_bytes: u32,
}

fn word_at(order: WordOrder, bytes: &[u8], at: usize) -> u32
    requires { at + 4 ≤ length bytes.now }
    ensures { result ≡ number order (drop at bytes.now) }
{
    word(order, &bytes[at..])
}

#[tactic(auto, unfolding(crate::specs::Words::words_in))]
fn words_in(order: WordOrder, front: &[u8]) -> HeaderWords
    requires { 64 ≤ length front.now }
    ensures { result ≡ words_in order front.now }
{
    HeaderWords {
        order,
        kind: word_at(order, front, 16),
        format: word_at(order, front, 24),
        internal: word_at(order, front, 28),
        width: word_at(order, front, 36),
        height: word_at(order, front, 40),
        depth: word_at(order, front, 44),
        elements: word_at(order, front, 48),
        faces: word_at(order, front, 52),
        levels: word_at(order, front, 56),
        key_bytes: word_at(order, front, 60),
    }
}

/// The first place, from this one on, at which bytes differ from a text of at most 64 bytes.
pub fn first_difference(at: u64, text: &[u8], bytes: &[u8]) -> Option<u64>
    requires { at + length text.now ≤ 64 }
    ensures { result ≡ first_difference at text.now bytes.now }
{
    let [c, text @ ..] = text else { return None };
    match bytes {
        [b, bytes @ ..] => {
            if c == b {
                first_difference(at + 1, text, bytes)
            } else {
                Some(at)
            }
        }
        [] => Some(at),
    }
}

fn identified(front: &[u8]) -> Result<(), HeaderFault>
    ensures { result ≡ identified (first_difference 0 identifier front.now) }
{
    match first_difference(0, &IDENTIFIER, front) {
        None => Ok(()),
        Some(place) => Err(HeaderFault::BadIdentifier(place)),
    }
}

fn order_of(endianness: u32) -> Result<WordOrder, HeaderFault>
    ensures { result ≡ order_of endianness }
{
    match endianness {
        0x04030201 => Ok(WordOrder::Little),
        0x01020304 => Ok(WordOrder::Big),
        other => Err(HeaderFault::BadEndian(u64::from(other))),
    }
}

fn long_enough(front: &[u8]) -> Result<(), HeaderFault>
    ensures { result ≡ long_enough front.now }
{
    if front.len() < 64 {
        return Err(HeaderFault::ShortHeader(front.len() as u64));
    }
    Ok(())
}

/// The words of a file whose first bytes, 64 at most, these are.
///
/// # Errors
///
/// The first fault of `ShortHeader`, `BadIdentifier` and `BadEndian`.
#[tactic(auto, unfolding(crate::specs::Words::words_of))]
pub fn words_of(front: &[u8]) -> Result<HeaderWords, HeaderFault>
    requires { length front.now ≤ 64 }
    ensures { result ≡ words_of front.now }
{
    long_enough(front)?;
    identified(front)?;
    let order = order_of(word(WordOrder::Little, &front[12..]))?;
    Ok(words_in(order, front))
}
