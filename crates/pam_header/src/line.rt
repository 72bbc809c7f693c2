// The meaning of a line of a header.
ghost use Rattle.std.specs.Prelude.{◌≡◌};
ghost use Rattle.pam_header.specs.Lines.{line_of, by_word, keyword, name_of, value_in};

use crate::HeaderName;
use crate::text::{LeadingWord, is_same, unblanked, word_of};
use decimal_text::number_in;

/// The meaning of a line of a header.
#[derive(Clone, Copy, Debug, PartialEq, Eq)]
pub(crate) enum HeaderLine {
    /// Nothing that counts.
    Passed,
    /// The header ends.
    End,
    /// A number under a name, None if it is not a number.
    Field(HeaderName, Option<u32>),
    /// Nothing that is known.
    Unknown,
}

fn name_of(word: &[u8]) -> Option<HeaderName>
    ensures { result ≡ name_of word.now }
{
    if is_same(word, HeaderName::Width.word().as_bytes()) {
        Some(HeaderName::Width)
    } else if is_same(word, HeaderName::Height.word().as_bytes()) {
        Some(HeaderName::Height)
    } else if is_same(word, HeaderName::Depth.word().as_bytes()) {
        Some(HeaderName::Depth)
    } else if is_same(word, HeaderName::Maxval.word().as_bytes()) {
        Some(HeaderName::Maxval)
    } else {
        None
    }
}

#[tactic(auto, unfolding(crate::specs::Lines::value_in))]
fn value_in(bytes: &[u8]) -> Option<u32>
    ensures { result ≡ value_in bytes.now }
{
    let LeadingWord { word, rest } = word_of(bytes);
    if unblanked(rest).is_empty() {
        number_in(word)
    } else {
        None
    }
}

fn keyword(word: &[u8], rest: &[u8]) -> HeaderLine
    ensures { result ≡ keyword word.now rest.now }
{
    if is_same(word, b"ENDHDR") {
        if rest.is_empty() {
            HeaderLine::End
        } else {
            HeaderLine::Unknown
        }
    } else if is_same(word, b"TUPLTYPE") {
        HeaderLine::Passed
    } else {
        match name_of(word) {
            Some(name) => HeaderLine::Field(name, value_in(rest)),
            None => HeaderLine::Unknown,
        }
    }
}

fn by_word(word: &[u8], rest: &[u8]) -> HeaderLine
    ensures { result ≡ by_word word.now rest.now }
{
    match word {
        [] => HeaderLine::Passed,
        [b'#', ..] => HeaderLine::Passed,
        _ => keyword(word, rest),
    }
}

/// The meaning of a line, whatever blanks begin and end it.
#[tactic(auto, unfolding(crate::specs::Lines::line_of))]
pub(crate) fn line_of(text: &[u8]) -> HeaderLine
    ensures { result ≡ line_of text.now }
{
    let LeadingWord { word, rest } = word_of(unblanked(text));
    by_word(word, unblanked(rest))
}
