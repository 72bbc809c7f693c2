// Words as they are shown.
use std::fmt;

/// The place of a word, by its number in a fault.
pub(crate) fn index(place: u64) -> usize {
    match usize::try_from(place) {
        Ok(index) => index,
        Err(_) => usize::MAX,
    }
}

/// The greatest number of columns of a word.
const MOST_COLUMNS: usize = 80;

/// The number of columns of a longer word, before two dots.
const KEPT_COLUMNS: usize = 78;

/// A word on one line, in quotes, shortened to 80 columns.
#[derive(Drop)]
pub(crate) struct Quoted<'a>(pub(crate) &'a str);

impl fmt::Display for Quoted<'_> {
    fn fmt<W: fmt::Write>(&self, f: &mut fmt::Formatter<W>) -> fmt::Result {
        let signs = Signs {
            word: self.0,
            quote: "'",
        };
        write!(f, "'{signs}'")
    }
}

/// The signs of a word that fit in 80 columns, with other signs for a quote.
#[derive(Drop)]
struct Signs<'a> {
    word: &'a str,
    quote: &'a str,
}

impl fmt::Display for Signs<'_> {
    fn fmt<W: fmt::Write>(&self, f: &mut fmt::Formatter<W>) -> fmt::Result {
        let mut left = if columns_of(self.word) <= MOST_COLUMNS {
            MOST_COLUMNS
        } else {
            KEPT_COLUMNS
        };
        for sign in self.word.chars() {
            let Some(rest) = left.checked_sub(width_of(sign)) else {
                return f.write_str("..");
            };
            left = rest;
            if sign == '\'' {
                f.write_str(self.quote)?;
            } else {
                let sign = shown(sign);
                write!(f, "{sign}")?;
            }
        }
        Ok(())
    }
}

// How many columns a word takes.
fn columns_of(word: &str) -> usize {
    let mut columns: usize = 0;
    for sign in word.chars() {
        columns = columns.saturating_add(width_of(sign));
    }
    columns
}

// How many columns a sign takes at most: from the first wide script on, two.
fn width_of(sign: char) -> usize {
    if sign < '\u{1100}' { 1 } else { 2 }
}

// A sign that moves no cursor, changes no colour and no order, and can be seen.
fn shown(sign: char) -> char {
    if sign.is_control() || is_format(sign) {
        '?'
    } else {
        sign
    }
}

// Whether a sign formats or separates others: Unicode's categories Cf, Zl and Zp, as far as a
// terminal may act on them or show nothing.
fn is_format(sign: char) -> bool {
    matches!(
        sign,
        '\u{ad}' | '\u{61c}' | '\u{180e}' | '\u{200b}'..='\u{200f}' | '\u{2028}'..='\u{202e}'
            | '\u{2060}'..='\u{206f}' | '\u{feff}' | '\u{fff9}'..='\u{fffb}'
            | '\u{e0000}'..='\u{e0fff}'
    )
}

/// A word as a shell takes it: in quotes if it has a sign that a shell may interpret. The word is
/// shortened to 80 columns.
#[derive(Drop)]
pub(crate) struct InShell<'a>(pub(crate) &'a str);

fn is_plain(sign: char) -> bool {
    sign.is_ascii_alphanumeric() || matches!(sign, '.' | '_' | '/' | '-' | '+' | ',')
}

impl fmt::Display for InShell<'_> {
    fn fmt<W: fmt::Write>(&self, f: &mut fmt::Formatter<W>) -> fmt::Result {
        let signs = Signs {
            word: self.0,
            quote: "'\\''",
        };
        if self.0.chars().all(is_plain) {
            write!(f, "{signs}")
        } else {
            write!(f, "'{signs}'")
        }
    }
}
