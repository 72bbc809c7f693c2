// The values of single words.
ghost use Rattle.std.specs.Prelude.{◌≡◌, ◌≤◌, ◌<◌, ℕ, Some, None, Option, IfSome, IfNone};
ghost use Rattle.astc_words.specs.Values.{number_within, number_at, footprint_of, footprint_at, preset_of, preset_at};
ghost use Rattle.astc_words.specs.Weights.{before_comma, behind_comma, front_number, weighting, weights_in};
ghost use Rattle.astc_words.specs.Views.{seen_number};

use crate::{UsageFault, Within};
use astc_model::{ChannelWeights, FootprintName, Preset};
use decimal_text::number_in;

/// The decimal number of a word, if it is within these.
pub(crate) fn number_within<const LEAST: u32, const MOST: u32>(
    word: &[u8],
) -> Option<Within<LEAST, MOST>>
    ensures { result ≡ number_within LEAST MOST word.now }
{
    Within::new(number_in(word)?)
}

/// The number of the word at a place.
pub(crate) fn number_at<const LEAST: u32, const MOST: u32>(
    place: u64,
    word: &str,
) -> Result<Within<LEAST, MOST>, UsageFault>
    ensures { result ≡ number_at place LEAST MOST word.now }
{
    number_within(word.as_bytes()).ok_or(UsageFault::BadNumber(place))
}

/// The footprint that a word names.
fn footprint_of(word: &str) -> Option<FootprintName>
    ensures { result ≡ footprint_of word.now }
{
    FootprintName::from_word(word)
}

/// The footprint of the word at a place.
pub(crate) fn footprint_at(place: u64, word: &str) -> Result<FootprintName, UsageFault>
    ensures { result ≡ footprint_at place word.now }
{
    footprint_of(word).ok_or(UsageFault::BadFootprint(place))
}

/// The preset that a word names.
fn preset_of(word: &str) -> Option<Preset>
    ensures { result ≡ preset_of word.now }
{
    Preset::from_word(word)
}

/// The preset of the word at a place.
pub(crate) fn preset_at(place: u64, word: &str) -> Result<Preset, UsageFault>
    ensures { result ≡ preset_at place word.now }
{
    preset_of(word).ok_or(UsageFault::BadPreset(place))
}

/// A text up to a comma, and the text after it.
#[derive(Clone, Copy)]
struct CutText<'a> {
    text: &'a [u8],
    rest: &'a [u8],
}

/// The text up to the first comma; None without a comma.
fn cut_at_comma(text: &[u8]) -> Option<CutText<'_>>
    ensures front { IfSome result (λ cut. before_comma text.now ≡ cut.text.now) }
    ensures rest { IfSome result (λ cut. behind_comma text.now ≡ Some cut.rest.now) }
    ensures none { IfNone result (behind_comma text.now ≡ None) }
{
    for at in 0..text.len() {
        if text[at] == b',' {
            return Some(CutText {
                text: &text[..at],
                rest: &text[at + 1..],
            });
        }
    }
    None
}

/// The weight of a channel.
fn weight_in(text: &[u8]) -> Option<u8>
    ensures { result ≡ number_within 0 15 text.now }
{
    let weight = number_within::<0, 15>(text)?;
    Some(weight.get() as u8)
}

/// A number, and the text after it.
#[derive(Clone, Copy)]
struct LeadingNumber<'a> {
    number: u8,
    rest: &'a [u8],
}

/// The number before the first comma, and the text after the comma.
#[tactic(auto, unfolding(crate::specs::Weights::front_number))]
fn front_number(text: &[u8]) -> Option<LeadingNumber<'_>>
    ensures { seen_number result ≡ front_number text.now }
{
    let cut = cut_at_comma(text)?;
    let number = weight_in(cut.text)?;
    Some(LeadingNumber {
        number,
        rest: cut.rest,
    })
}

/// The weights that four numbers are.
fn weighting(numbers: [u8; 4]) -> Option<ChannelWeights>
    ensures { result ≡ weighting numbers }
{
    ChannelWeights::new(numbers)
}

/// The weights that a text such as `3,0,1,15` writes: red, green, blue, alpha.
#[tactic(auto, unfolding(crate::specs::Weights::weights_in))]
pub(crate) fn weights_in(text: &[u8]) -> Option<ChannelWeights>
    ensures { result ≡ weights_in text.now }
{
    let red = front_number(text)?;
    let green = front_number(red.rest)?;
    let blue = front_number(green.rest)?;
    let alpha = weight_in(blue.rest)?;
    weighting([red.number, green.number, blue.number, alpha])
}
