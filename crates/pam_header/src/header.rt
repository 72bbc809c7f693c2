// The header at the start of an image.
ghost use Rattle.std.specs.Prelude.{◌≡◌, ◌≤◌, ◌+◌, ◌<◌, ℕ, List, [], ◌++◌, length, IfOk, IfErr};
ghost use Rattle.pam_header.specs.Faults.{image_at, JudgesImage, EndsImage};
ghost use Rattle.pam_header.specs.Text.{lines_of};
ghost use Rattle.pam_header.specs.Headers.{header_most, begins_as_pam, is_magic, seen_at, with_value, nothing, judged, header_lines, header_in, present, fields_of, checked, settled, header_of, IsHeader, IsInside};

use crate::line::{HeaderLine, line_of};
use crate::text::{cut_line, unblanked};
use crate::{HeaderName, ImageFault};

// No header has more bytes.
const HEADER_MOST: usize = 4096;

/// The numbers of the lines so far.
#[derive(Clone, Copy)]
pub(crate) struct SeenNumbers {
    width: Option<u32>,
    height: Option<u32>,
    depth: Option<u32>,
    maxval: Option<u32>,
}

impl SeenNumbers {
    fn nothing() -> SeenNumbers
        ensures { result ≡ nothing }
    {
        SeenNumbers {
            width: None,
            height: None,
            depth: None,
            maxval: None,
        }
    }

    fn at(&self, name: HeaderName) -> Option<u32>
        ensures { result ≡ seen_at self.now name }
    {
        match name {
            HeaderName::Width => self.width,
            HeaderName::Height => self.height,
            HeaderName::Depth => self.depth,
            HeaderName::Maxval => self.maxval,
        }
    }

    fn with(self, name: HeaderName, value: u32) -> SeenNumbers
        ensures { result ≡ with_value self name value }
    {
        let mut seen = self;
        match name {
            HeaderName::Width => seen.width = Some(value),
            HeaderName::Height => seen.height = Some(value),
            HeaderName::Depth => seen.depth = Some(value),
            HeaderName::Maxval => seen.maxval = Some(value),
        }
        seen
    }
}

/// The numbers after a further line.
#[derive(Clone, Copy)]
pub(crate) enum LineVerdict {
    Going(SeenNumbers),
    Ended,
    Faulty(ImageFault),
}

/// The numbers of a header, and its length.
#[derive(Clone, Copy)]
pub(crate) struct FoundHeader {
    seen: SeenNumbers,
    size: usize,
}

/// The end of the lines at the start of an image.
#[derive(Clone, Copy)]
pub(crate) enum Ending {
    Whole(FoundHeader),
    Faulty(ImageFault),
    Unfinished,
}

/// The four numbers of a header.
#[derive(Clone, Copy)]
pub(crate) struct HeaderFields {
    width: u32,
    height: u32,
    depth: u32,
    maxval: u32,
}

/// A header without fault: sides of 1 to 8192, 1 to 4 bytes per texel, and a greatest value of 255.
#[derive(Clone, Copy, Debug, PartialEq, Eq)]
pub struct PamHeader {
    /// The width in texels.
    pub width: u32,
    /// The height in texels.
    pub height: u32,
    /// The bytes of a texel.
    pub depth: u32,
    /// The bytes of the header, up to the raster.
    pub size: usize,
}

fn judge_field(
    image: u64,
    line: u64,
    seen: &SeenNumbers,
    name: HeaderName,
    value: Option<u32>,
) -> LineVerdict
    ensures image { JudgesImage image result }
    ensures same { result ≡ judged image line seen.now (HeaderLine.Field name value) }
{
    if seen.at(name).is_some() {
        return LineVerdict::Faulty(ImageFault::RepeatedLine(image, line));
    }
    match value {
        Some(value) => LineVerdict::Going(seen.with(name, value)),
        None => LineVerdict::Faulty(ImageFault::BadNumber(image, line)),
    }
}

fn judge(image: u64, line: u64, seen: &SeenNumbers, said: HeaderLine) -> LineVerdict
    ensures image { JudgesImage image result }
    ensures same { result ≡ judged image line seen.now said }
{
    match said {
        HeaderLine::Passed => LineVerdict::Going(*seen),
        HeaderLine::End => LineVerdict::Ended,
        HeaderLine::Unknown => LineVerdict::Faulty(ImageFault::UnknownLine(image, line)),
        HeaderLine::Field(name, value) => judge_field(image, line, seen, name, value),
    }
}

// The lines after the first, which has `first` bytes, up to the header's end.
fn read_lines(image: u64, first: usize, bytes: &[u8]) -> Ending
    requires { first + length bytes.now ≤ header_most }
    ensures same { result ≡ header_lines image 2 first nothing (lines_of bytes.now) }
    ensures image { EndsImage image result }
    ensures inside { IsInside (first + length bytes.now) result }
{
    let mut line = 2;
    let mut size = first;
    let mut seen = SeenNumbers::nothing();
    let mut rest = bytes;
    while let Some(cut) = cut_line(rest) {
        size += cut.text.len() + 1;
        match judge(image, line, &seen, line_of(cut.text)) {
            LineVerdict::Going(later) => seen = later,
            LineVerdict::Ended => return Ending::Whole(FoundHeader { seen, size }),
            LineVerdict::Faulty(fault) => return Ending::Faulty(fault),
        }
        line += 1;
        rest = cut.rest;
    }
    Ending::Unfinished
}

fn begins_as_pam(bytes: &[u8]) -> bool
    ensures { result ≡ begins_as_pam bytes.now }
{
    match bytes {
        [p, seven, ..] => *p == b'P' && *seven == b'7',
        _ => false,
    }
}

fn is_magic(text: &[u8]) -> bool
    ensures { result ≡ is_magic text.now }
{
    match text {
        [_, _, rest @ ..] => unblanked(rest).is_empty(),
        _ => false,
    }
}

#[tactic(auto, unfolding(crate::specs::Headers::header_in))]
fn header_in(image: u64, bytes: &[u8]) -> Ending
    requires { length bytes.now ≤ header_most }
    ensures same { result ≡ header_in image bytes.now }
    ensures image { EndsImage image result }
    ensures inside { IsInside (length bytes.now) result }
{
    if !begins_as_pam(bytes) {
        return Ending::Faulty(ImageFault::NotPam(image));
    }
    let Some(first) = cut_line(bytes) else {
        return Ending::Unfinished;
    };
    if !is_magic(first.text) {
        return Ending::Faulty(ImageFault::NotPam(image));
    }
    read_lines(image, first.text.len() + 1, first.rest)
}

fn present(image: u64, name: HeaderName, value: Option<u32>) -> Result<u32, ImageFault>
    ensures same { result ≡ present image name value }
    ensures image { IfErr result (λ fault. image_at fault ≡ image) }
{
    match value {
        Some(value) => Ok(value),
        None => Err(ImageFault::MissingLine(image, name)),
    }
}

#[tactic(auto, unfolding(crate::specs::Headers::fields_of))]
fn fields_of(image: u64, seen: &SeenNumbers) -> Result<HeaderFields, ImageFault>
    ensures same { result ≡ fields_of image seen.now }
    ensures image { IfErr result (λ fault. image_at fault ≡ image) }
{
    let width = present(image, HeaderName::Width, seen.width)?;
    let height = present(image, HeaderName::Height, seen.height)?;
    let depth = present(image, HeaderName::Depth, seen.depth)?;
    let maxval = present(image, HeaderName::Maxval, seen.maxval)?;
    Ok(HeaderFields {
        width,
        height,
        depth,
        maxval,
    })
}

fn checked(image: u64, size: usize, fields: &HeaderFields) -> Result<PamHeader, ImageFault>
    ensures same { result ≡ checked image size fields.now }
    ensures image { IfErr result (λ fault. image_at fault ≡ image) }
    ensures header { IfOk result IsHeader }
    ensures size { IfOk result (λ header. header.size ≡ size) }
{
    let HeaderFields {
        width,
        height,
        depth,
        maxval,
    } = *fields;
    if maxval != 255 {
        return Err(ImageFault::MaxvalNot255(image, u64::from(maxval)));
    }
    if !(1..=4).contains(&depth) {
        return Err(ImageFault::BadDepth(image, u64::from(depth)));
    }
    if width < 1 || width > 8192 || height < 1 || height > 8192 {
        return Err(ImageFault::BadSides(image, u64::from(width), u64::from(height)));
    }
    Ok(PamHeader {
        width,
        height,
        depth,
        size,
    })
}

fn whole(image: u64, found: &FoundHeader) -> Result<PamHeader, ImageFault>
    ensures same { result ≡ settled image 0 (Ending.Whole found.now) }
    ensures image { IfErr result (λ fault. image_at fault ≡ image) }
    ensures header { IfOk result IsHeader }
    ensures size { IfOk result (λ header. header.size ≡ found.now.size) }
{
    let fields = fields_of(image, &found.seen)?;
    checked(image, found.size, &fields)
}

fn settled(image: u64, size: usize, ending: Ending) -> Result<PamHeader, ImageFault>
    requires inside { IsInside size ending }
    requires ending { EndsImage image ending }
    ensures same { result ≡ settled image size ending }
    ensures image { IfErr result (λ fault. image_at fault ≡ image) }
    ensures header { IfOk result IsHeader }
    ensures inside { IfOk result (λ header. header.size ≤ size) }
{
    match ending {
        Ending::Whole(found) => whole(image, &found),
        Ending::Faulty(fault) => Err(fault),
        Ending::Unfinished => {
            if size < HEADER_MOST {
                Err(ImageFault::Truncated(image, size as u64))
            } else {
                Err(ImageFault::HeaderTooLong(image))
            }
        }
    }
}

/// The header at the start of an image, by the first 4,096 bytes of the input from the image's
/// first byte on, or by all if they are fewer: `front` is these bytes, whatever follows them.
///
/// # Errors
///
/// The first fault of the header, which is one of this image.
pub fn header_at(image: u64, front: &[u8]) -> Result<PamHeader, ImageFault>
    requires { length front.now ≤ header_most }
    ensures same { (rest : List ℕ) → (length front.now < header_most → rest ≡ []) → result
        ≡ header_of image (front.now ++ rest) }
    ensures image { IfErr result (λ fault. image_at fault ≡ image) }
    ensures header { IfOk result IsHeader }
    ensures inside { IfOk result (λ header. header.size ≤ length front.now) }
{
    settled(image, front.len(), header_in(image, front))
}
