// The options of commands.
ghost use Rattle.std.specs.Prelude.{◌≡◌, ◌+◌, ◌<◌, ◌^◌, length, map, ok_or};
ghost use Rattle.astc_words.specs.Commands.{texts};
ghost use Rattle.astc_words.specs.Options.{option_lines, value_in, option_in, no_options, has, levels_in, with_value, with_new, with_option, options_from};
ghost use Rattle.astc_words.specs.Values.{number_within};
ghost use Rattle.astc_words.specs.Views.{seen_bytes, seen_option, seen_row};

use crate::numbers::{number_within, weights_in};
use crate::{Levels, UsageFault, Within};
use astc_model::ChannelWeights;

/// The subject of an option.
#[derive(Clone, Copy, Debug, PartialEq, Eq)]
pub(crate) enum OptionKind {
    Elements,
    Cube,
    MipLevels,
    Advised,
    Fitted,
    Srgb,
    Weights,
}

/// The commands that take options. A polish takes the options of an audit.
#[derive(Clone, Copy, Debug, PartialEq, Eq)]
pub(crate) enum Taker {
    Pack,
    PackKtx,
    Import,
    Audit,
    Part,
}

/// An option by its name, which is the whole word or precedes its value, and the commands that take
/// it.
struct OptionRow {
    name: &'static [u8],
    has_value: bool,
    kind: OptionKind,
    takers: &'static [Taker],
}

static OPTIONS: [OptionRow; 7] = [
    OptionRow {
        name: b"elements=",
        has_value: true,
        kind: OptionKind::Elements,
        takers: &[Taker::Pack, Taker::Part],
    },
    OptionRow {
        name: b"cube",
        has_value: false,
        kind: OptionKind::Cube,
        takers: &[Taker::Pack, Taker::Part],
    },
    OptionRow {
        name: b"levels=",
        has_value: true,
        kind: OptionKind::MipLevels,
        takers: &[Taker::Pack, Taker::Part],
    },
    OptionRow {
        name: b"advised",
        has_value: false,
        kind: OptionKind::Advised,
        takers: &[Taker::Pack, Taker::PackKtx],
    },
    OptionRow {
        name: b"fitted",
        has_value: false,
        kind: OptionKind::Fitted,
        takers: &[Taker::Pack, Taker::PackKtx, Taker::Part],
    },
    OptionRow {
        name: b"srgb",
        has_value: false,
        kind: OptionKind::Srgb,
        takers: &[Taker::Pack, Taker::PackKtx, Taker::Import, Taker::Part],
    },
    OptionRow {
        name: b"weights=",
        has_value: true,
        kind: OptionKind::Weights,
        takers: &[Taker::Pack, Taker::PackKtx, Taker::Audit, Taker::Part],
    },
];

/// An option by its kind, and the text after its name.
#[derive(Clone, Copy)]
struct OptionText<'a> {
    kind: OptionKind,
    value: &'a [u8],
}

/// The options so far.
#[derive(Drop)]
pub(crate) struct OptionsSoFar {
    pub(crate) elements: Option<Within<0, 2048>>,
    pub(crate) cube: bool,
    pub(crate) levels: Option<Levels>,
    pub(crate) advised: bool,
    pub(crate) fitted: bool,
    pub(crate) srgb: bool,
    pub(crate) weights: Option<ChannelWeights>,
}

/// Before the first option.
pub(crate) fn no_options() -> OptionsSoFar
    ensures { result ≡ no_options }
{
    OptionsSoFar {
        elements: None,
        cube: false,
        levels: None,
        advised: false,
        fitted: false,
        srgb: false,
        weights: None,
    }
}

impl OptionRow {
    /// The text after the name in a word; None if the word is not this option, or the command does
    /// not take the option.
    fn value_in<'a>(&self, taker: Taker, word: &'a [u8]) -> Option<&'a [u8]>
        ensures { seen_bytes result ≡ value_in (seen_row self.now) taker word.now }
    {
        if self.takers.contains(&taker)
            && word.starts_with(self.name)
            && (self.has_value || word.len() == self.name.len())
        {
            word.strip_prefix(self.name)
        } else {
            None
        }
    }
}

/// The option that a word is.
fn option_in<'a>(rows: &[OptionRow], taker: Taker, word: &'a [u8]) -> Option<OptionText<'a>>
    ensures { seen_option result ≡ option_in (map seen_row rows.now) taker word.now }
{
    match rows {
        [] => None,
        [row, rest @ ..] => match row.value_in(taker, word) {
            None => option_in(rest, taker, word),
            Some(value) => Some(OptionText {
                kind: row.kind,
                value,
            }),
        },
    }
}

/// Whether the option was given before.
fn has(options: &OptionsSoFar, option: OptionKind) -> bool
    ensures { result ≡ has options.now option }
{
    match option {
        OptionKind::Elements => options.elements.is_some(),
        OptionKind::Cube => options.cube,
        OptionKind::MipLevels => options.levels.is_some(),
        OptionKind::Advised => options.advised,
        OptionKind::Fitted => options.fitted,
        OptionKind::Srgb => options.srgb,
        OptionKind::Weights => options.weights.is_some(),
    }
}

/// The number of elements of a word.
fn elements_in(value: &[u8]) -> Option<Within<0, 2048>>
    ensures { result ≡ number_within 1 2048 value.now }
{
    let elements = number_within::<1, 2048>(value)?;
    Some(Within::known(elements.get()))
}

/// `full`, or a number of 1 to 14.
fn levels_in(value: &[u8]) -> Option<Levels>
    ensures { result ≡ levels_in value.now }
{
    if value == b"full".as_slice() {
        return Some(Levels::Full);
    }
    Some(Levels::Number(number_within::<1, 14>(value)?))
}

/// The options with this value of an option; None if the value is wrong.
fn with_value(options: OptionsSoFar, option: OptionKind, value: &[u8]) -> Option<OptionsSoFar>
    ensures { result ≡ with_value options option value.now }
{
    match option {
        OptionKind::Elements => Some(OptionsSoFar {
            elements: Some(elements_in(value)?),
            ..options
        }),
        OptionKind::Cube => Some(OptionsSoFar {
            cube: true,
            ..options
        }),
        OptionKind::MipLevels => Some(OptionsSoFar {
            levels: Some(levels_in(value)?),
            ..options
        }),
        OptionKind::Advised => Some(OptionsSoFar {
            advised: true,
            ..options
        }),
        OptionKind::Fitted => Some(OptionsSoFar {
            fitted: true,
            ..options
        }),
        OptionKind::Srgb => Some(OptionsSoFar {
            srgb: true,
            ..options
        }),
        OptionKind::Weights => Some(OptionsSoFar {
            weights: Some(weights_in(value)?),
            ..options
        }),
    }
}

/// The options, if there are some.
fn wanted(options: Option<OptionsSoFar>, fault: UsageFault) -> Result<OptionsSoFar, UsageFault>
    ensures { result ≡ ok_or options fault }
{
    match options {
        None => Err(fault),
        Some(options) => Ok(options),
    }
}

/// The options with one more, unless it was given before.
fn with_new(
    place: u64,
    options: OptionsSoFar,
    option: OptionKind,
    value: &[u8],
) -> Result<OptionsSoFar, UsageFault>
    ensures { result ≡ with_new place options option value.now }
{
    if has(&options, option) {
        Err(UsageFault::RepeatedOption(place))
    } else {
        wanted(
            with_value(options, option, value),
            UsageFault::BadNumber(place),
        )
    }
}

/// With the option that the word at a place is.
fn with_option(
    taker: Taker,
    place: u64,
    options: OptionsSoFar,
    word: &[u8],
) -> Result<OptionsSoFar, UsageFault>
    ensures { result ≡ with_option place options (option_in option_lines taker word.now) }
{
    match option_in(&OPTIONS, taker, word) {
        None => Err(UsageFault::BadOption(place)),
        Some(option) => with_new(place, options, option.kind, option.value),
    }
}

/// With the options that the words from a place on are.
///
/// # Errors
///
/// `BadOption` if a word is not an option of the command, `RepeatedOption` if it was given before,
/// `BadNumber` if its value is wrong, each with the place of the first such word.
pub(crate) fn options_from(
    taker: Taker,
    place: u64,
    options: OptionsSoFar,
    words: &[String],
) -> Result<OptionsSoFar, UsageFault>
    requires { place + length words.now < 2 ^ 64 }
    ensures { result ≡ options_from taker place options (texts words.now) }
{
    match words {
        [] => Ok(options),
        [word, rest @ ..] => match with_option(taker, place, options, word.as_bytes()) {
            Ok(more) => options_from(taker, place + 1, more, rest),
            Err(fault) => Err(fault),
        },
    }
}
