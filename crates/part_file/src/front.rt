// The prefix before a part's blocks.
ghost use Rattle.std.specs.Prelude.{◌≡◌, ◌≤◌, ◌+◌, length, IfOk, OnOk, drop, codes};
ghost use Rattle.ktx_header.specs.Orders.{number};
ghost use Rattle.ktx_header.specs.Words.{identifier, first_difference};
ghost use Rattle.ktx_header.specs.declared.order.WordOrder.TheVariants.{Little};
ghost use Rattle.ktx_file.specs.Framing.{header_of};
ghost use Rattle.part_file.specs.Ranges.{IsPlace};
ghost use Rattle.part_file.specs.Fronts.{IsFront, front_of, own_identifier, begins_with, no_other_file, long_enough, identified, shape_in, same_header, place_fits, front_in};

use crate::mark::{mark_bytes, mark_in};
use crate::piece::word_at;
use crate::{JobMark, PartFault};
use byteorder::{ByteOrder, LittleEndian};
use ktx_file::{header, header_in};
use texture::Layout;

static KTX: [u8; 12] = [
    0xAB, 0x4B, 0x54, 0x58, 0x20, 0x31, 0x31, 0xBB, 0x0D, 0x0A, 0x1A, 0x0A,
];

/// The prefix before the blocks of a part: the layout of the whole texture, the mark of the job,
/// the part's place, from 0, and the number of parts, 65,536 at most.
#[derive(Clone, Copy, Debug, PartialEq, Eq)]
pub struct Front {
    pub layout: Layout,
    pub mark: JobMark,
    pub place: u32,
    pub count: u32,
}

/// The 132 bytes in front of the blocks of a part: the identifier of part files, the header of the
/// whole file, the part's place, the number of parts, and the mark of the job, the low byte of each
/// number first.
#[tactic(auto, unfolding(crate::specs::Fronts::front_of))]
pub fn part_header(front: &Front) -> [u8; 132]
    requires { IsFront front.now }
    ensures { result ≡ front_of front.now }
{
    let mut bytes = [0; 132];
    bytes[..16].copy_from_slice(b"astc_tool part\r\n");
    bytes[16..108].copy_from_slice(&header(&front.layout.shape()));
    LittleEndian::write_u32(&mut bytes[108..112], front.place);
    LittleEndian::write_u32(&mut bytes[112..116], front.count);
    bytes[116..].copy_from_slice(&mark_bytes(&front.mark));
    bytes
}

// The first place, from this one on, at which bytes differ from a text.
fn difference(at: u64, text: &[u8], bytes: &[u8]) -> Option<u64>
    requires { at + length text.now ≤ 108 }
    ensures { result ≡ first_difference at text.now bytes.now }
{
    let [c, text @ ..] = text else {
        return None;
    };
    match bytes {
        [b, bytes @ ..] => {
            if c == b {
                difference(at + 1, text, bytes)
            } else {
                Some(at)
            }
        }
        [] => Some(at),
    }
}

fn begins_with(text: &[u8], bytes: &[u8]) -> bool
    requires { length text.now ≤ 108 }
    ensures { result ≡ begins_with text.now bytes.now }
{
    difference(0, text, bytes).is_none()
}

// The file is neither a texture nor a picture.
fn no_other_file(front: &[u8]) -> Result<(), PartFault>
    ensures { result ≡ no_other_file front.now }
{
    if begins_with(&KTX, front) {
        return Err(PartFault::WholeTexture);
    }
    if begins_with(b"P7\n", front) {
        return Err(PartFault::Picture);
    }
    Ok(())
}

fn long_enough(front: &[u8]) -> Result<(), PartFault>
    ensures { result ≡ long_enough front.now }
{
    if front.len() < 132 {
        return Err(PartFault::ShortData(front.len() as u64));
    }
    Ok(())
}

fn identified(front: &[u8]) -> Result<(), PartFault>
    ensures { result ≡ identified (first_difference 0 own_identifier front.now) }
{
    match difference(0, b"astc_tool part\r\n", front) {
        None => Ok(()),
        Some(place) => Err(PartFault::NoPart(place)),
    }
}

// The layout of the shape that the first 64 bytes of a header say.
#[tactic(auto, unfolding(crate::specs::Fronts::shape_in))]
fn layout_in(bytes: &[u8]) -> Result<Layout, PartFault>
    requires { 64 ≤ length bytes.now }
    ensures { result ≡ shape_in bytes.now }
{
    let header = header_in(&bytes[..64])?;
    Ok(header.layout)
}

// The 92 bytes of the header are those that are written for this shape.
fn same_header(layout: &Layout, bytes: &[u8]) -> Result<(), PartFault>
    ensures { result ≡ same_header (first_difference 16 (header_of layout.now) bytes.now) }
{
    match difference(16, &header(&layout.shape()), bytes) {
        None => Ok(()),
        Some(place) => Err(PartFault::OtherHeader(place)),
    }
}

fn place_fits(place: u32, count: u32) -> Result<(), PartFault>
    ensures same { result ≡ place_fits place count }
    ensures fits { OnOk result (IsPlace place count) }
{
    if place >= count || count > 65_536 {
        return Err(PartFault::BadPlace(u64::from(place), u64::from(count)));
    }
    Ok(())
}

/// The prefix of a file that begins with these bytes.
///
/// # Errors
///
/// The first fault of these bytes, in the order of [`PartFault`].
#[tactic(auto, unfolding(crate::specs::Fronts::front_in))]
pub fn front_in(front: &[u8]) -> Result<Front, PartFault>
    ensures exact { result ≡ front_in front.now }
    ensures valid { IfOk result IsFront }
{
    no_other_file(front)?;
    long_enough(front)?;
    identified(front)?;
    let layout = layout_in(&front[16..])?;
    same_header(&layout, &front[16..])?;
    let place = word_at(front, 108);
    let count = word_at(front, 112);
    place_fits(place, count)?;
    Ok(Front {
        layout,
        mark: mark_in(&front[116..]),
        place,
        count,
    })
}
