// The header and the raster of one image, read from the opened input of a shelf.
ghost use Rattle.std.specs.Prelude.{◌≡◌, ◌≤◌, ◌<◌, ◌+◌, ◌*◌, ◌++◌, ℕ, List, [], Some, Ok, length, take, drop, IfOk, OnOk, IfErr};
ghost use Rattle.tex_shelf.specs.Files.{with_front};
ghost use Rattle.tex_shelf.specs.Stops.{IsEarly, IsLate};
ghost use Rattle.pam_header.specs.Headers.{header_most, IsHeader};
ghost use Rattle.pam_header.specs.Faults.{image_at, is_early};
ghost use Rattle.pam_image.specs.Outside.{OnlyTakes};
ghost use Rattle.pam_image.specs.Reading.{no_image, image_header, raster_size, raster_of};
ghost use Rattle.pam_image.specs.Steps.{AnswersWith, IsOfImage, IsRaster};

use crate::ImageStop;
use crate::front::front_of;
use pam_header::{ImageFault, PamHeader, header_at};
use std::alloc::{AllocError, Global};
use tex_shelf::{Shelf, Stop, take_growing};

/// A header, and the bytes of the image that were taken so far.
#[derive(Drop)]
pub(crate) struct Begun {
    pub(crate) header: PamHeader,
    pub(crate) front: Vec<u8>,
}

fn no_image(image: u64) -> ImageFault
    ensures image { image_at result ≡ image }
    ensures same { result ≡ no_image image }
{
    if image == 0 {
        ImageFault::NotPam(0)
    } else {
        ImageFault::FewImages(image)
    }
}

// The header of the image that begins with these bytes, 4,096 or all.
fn header_in_front(image: u64, front: &[u8]) -> Result<PamHeader, ImageFault>
    requires { length front.now ≤ header_most }
    ensures exact { (rest : List ℕ) → (length front.now < header_most → rest ≡ []) → result
        ≡ image_header image (front.now ++ rest) }
    ensures image { IfErr result (λ fault. image_at fault ≡ image) }
    ensures header { IfOk result IsHeader }
    ensures inside { IfOk result (λ header. header.size ≤ length front.now) }
{
    if front.is_empty() {
        return Err(no_image(image));
    }
    header_at(image, front)
}

/// The header of the image that begins with the bytes taken ahead.
pub(crate) fn read_header<S: Shelf>(
    alloc: Global,
    shelf: &mut S,
    ahead: &[u8],
    image: u64,
) -> Result<Begun, ImageStop>
    requires { length ahead.now ≤ header_most }
    ensures reads { (bytes : List ℕ) → with_front ahead.now (S.left shelf.old) ≡ Some bytes
        → AnswersWith (λ begun rest. (image_header image bytes ≡ Ok begun.header)
        × (begun.front.items ++ rest ≡ bytes))
        (image_header image bytes) (S.left shelf.new) result }
    ensures early { (bytes : List ℕ) → with_front ahead.now (S.left shelf.old) ≡ Some bytes
        → (rest : List ℕ) → S.left shelf.new ≡ Some rest → IsEarly is_early header_most
        (λ _. bytes) rest result }
    ensures image { IsOfImage image result }
    ensures header { IfOk result (λ begun. IsHeader begun.header
        × (begun.header.size ≤ length begun.front.items)
        × (length begun.front.items ≤ header_most)) }
    ensures outside { OnlyTakes S.Shelf shelf.old shelf.new Stop.ReadFault result }
{
    let front = front_of(alloc, shelf, ahead)?;
    let header = header_in_front(image, &front)?;
    Ok(Begun { header, front })
}

// Appends a raster that begins these bytes, and returns the bytes after it.
fn raster_in(
    alloc: Global,
    start: &[u8],
    size: usize,
    bytes: &mut Vec<u8>,
) -> Result<Vec<u8>, AllocError>
    requires { size ≤ length start.now }
    ensures raster { OnOk result (bytes.new.items ≡ bytes.old.items ++ take size start.now) }
    ensures rest { IfOk result (λ rest. rest.items ≡ drop size start.now) }
{
    let (raster, rest) = start.split_at(size);
    bytes.extend_from_slice(raster)?;
    Vec::from_slice(alloc, rest)
}

/// Appends the raster of the image that begins with these bytes, as in the file, and returns the
/// bytes taken after it.
pub(crate) fn read_raster<S: Shelf>(
    alloc: Global,
    shelf: &mut S,
    image: u64,
    header: &PamHeader,
    front: &[u8],
    bytes: &mut Vec<u8>,
) -> Result<Vec<u8>, ImageStop>
    requires header { IsHeader header.now }
    requires inside { header.now.size ≤ length front.now }
    requires short { length front.now ≤ header_most }
    ensures reads { (input : List ℕ) → with_front front.now (S.left shelf.old) ≡ Some input
        → AnswersWith (λ ahead rest. (raster : List ℕ)
        × IsRaster image header.now input bytes.old.items bytes.new.items ahead.items rest
        raster)
        (raster_of image header.now input) (S.left shelf.new) result }
    ensures late { IsLate is_early result }
    ensures image { IsOfImage image result }
    ensures size { OnOk result (length bytes.new.items
        ≡ length bytes.old.items + raster_size header.now) }
    ensures ahead { IfOk result (λ ahead. length ahead.items ≤ header_most) }
    ensures outside { OnlyTakes S.Shelf shelf.old shelf.new Stop.ReadFault result }
{
    let (_, start) = front.split_at(header.size);
    let size = header.width as usize * header.height as usize * header.depth as usize;
    if size <= start.len() {
        return Ok(raster_in(alloc, start, size, bytes)?);
    }
    bytes.extend_from_slice(start)?;
    let taken = take_growing(shelf, bytes, size - start.len())?;
    if start.len() + taken < size {
        return Err(ImageStop::Fault(ImageFault::Truncated(image, (front.len() + taken) as u64)));
    }
    Ok(Vec::new(alloc))
}
