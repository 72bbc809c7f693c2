// Images one after another, read from the opened input of a shelf.
ghost use Rattle.std.specs.Prelude.{◌≡◌, ◌≤◌, ◌+◌, ◌-◌, ◌*◌, ◌++◌, ℕ, List, [], Some, Ok, length, IfOk, OnOk};
ghost use Rattle.tex_shelf.specs.Files.{with_front};
ghost use Rattle.tex_shelf.specs.Stops.{IsEarly, IsLate};
ghost use Rattle.pam_header.specs.Headers.{header_most, IsHeader};
ghost use Rattle.pam_header.specs.Faults.{image_at, is_early};
ghost use Rattle.pam_image.specs.Outside.{OnlyTakes};
ghost use Rattle.images.specs.Pictures.{IsValid};
ghost use Rattle.pam_image.specs.Reading.{texels_behind, first_header, later_image, later_images, ended, images_of, IsWanted};
ghost use Rattle.pam_image.specs.Steps.{AnswersWith, IsOfImage, Suits, from_image};

use crate::fits::{first_fits, later_fits};
use crate::raster::{Begun, read_header, read_raster};
use crate::widening::push_texels;
use crate::{ImageStop, Images, Want};
use pam_header::{ImageFault, PamHeader};
use std::alloc::Global;
use tex_shelf::{Shelf, Stop, take_full};

// Appends the texels of the image that begins with these bytes, and returns the bytes taken after
// it. A raster of four bytes per texel is read into its place.
fn read_texels<S: Shelf>(
    alloc: Global,
    shelf: &mut S,
    image: u64,
    begun: &Begun,
    texels: &mut Vec<u8>,
) -> Result<Vec<u8>, ImageStop>
    requires header { IsHeader begun.now.header }
    requires inside { begun.now.header.size ≤ length begun.now.front.items }
    requires short { length begun.now.front.items ≤ header_most }
    ensures reads { (bytes : List ℕ) → with_front begun.now.front.items (S.left shelf.old)
        ≡ Some bytes
        → AnswersWith (λ ahead rest. (more : List ℕ)
        × (texels_behind image begun.now.header bytes
        ≡ Ok (record { bytes = more; rest = ahead.items ++ rest }))
        × (texels.new.items ≡ texels.old.items ++ more))
        (texels_behind image begun.now.header bytes) (S.left shelf.new) result }
    ensures late { IsLate is_early result }
    ensures image { IsOfImage image result }
    ensures grown { OnOk result (length texels.new.items
        ≡ length texels.old.items + 4
        * (begun.now.header.width * begun.now.header.height)) }
    ensures ahead { IfOk result (λ ahead. length ahead.items ≤ header_most) }
    ensures outside { OnlyTakes S.Shelf shelf.old shelf.new Stop.ReadFault result }
{
    if begun.header.depth == 4 {
        return read_raster(alloc, shelf, image, &begun.header, &begun.front, texels);
    }
    let mut raster = Vec::new(alloc);
    let ahead = read_raster(
        alloc,
        shelf,
        image,
        &begun.header,
        &begun.front,
        &mut raster,
    )?;
    push_texels(texels, begun.header.depth, &raster)?;
    Ok(ahead)
}

// Appends the texels of a later image of these sides.
fn read_later<S: Shelf>(
    alloc: Global,
    shelf: &mut S,
    width: u32,
    height: u32,
    image: u64,
    ahead: &[u8],
    texels: &mut Vec<u8>,
) -> Result<Vec<u8>, ImageStop>
    requires short { length ahead.now ≤ header_most }
    ensures reads { (bytes : List ℕ) → with_front ahead.now (S.left shelf.old) ≡ Some bytes
        → AnswersWith (λ ahead rest. (more : List ℕ)
        × (later_image width height image bytes
        ≡ Ok (record { bytes = more; rest = ahead.items ++ rest }))
        × (texels.new.items ≡ texels.old.items ++ more))
        (later_image width height image bytes) (S.left shelf.new) result }
    ensures early { (bytes : List ℕ) → with_front ahead.now (S.left shelf.old) ≡ Some bytes
        → (rest : List ℕ) → S.left shelf.new ≡ Some rest → IsEarly is_early header_most
        (λ _. bytes) rest result }
    ensures image { IsOfImage image result }
    ensures grown { OnOk result (length texels.new.items
        ≡ length texels.old.items + 4 * (width * height)) }
    ensures ahead { IfOk result (λ ahead. length ahead.items ≤ header_most) }
    ensures outside { OnlyTakes S.Shelf shelf.old shelf.new Stop.ReadFault result }
{
    let begun = read_header(alloc, shelf, ahead, image)?;
    later_fits(width, height, image, &begun.header)?;
    read_texels(alloc, shelf, image, &begun, texels)
}

// Sees that nothing is left of the input, of which this was taken ahead.
fn end<S: Shelf>(shelf: &mut S, ahead: &[u8]) -> Result<(), ImageStop>
    ensures reads { (bytes : List ℕ) → with_front ahead.now (S.left shelf.old) ≡ Some bytes
        → AnswersWith (λ _ rest. (bytes ≡ []) × (rest ≡ [])) (ended bytes)
        (S.left shelf.new) result }
    ensures late { IsLate is_early result }
    ensures outside { OnlyTakes S.Shelf shelf.old shelf.new Stop.ReadFault result }
{
    if !ahead.is_empty() {
        return Err(ImageStop::Fault(ImageFault::TrailingBytes));
    }
    let mut one_more = [0];
    if take_full(shelf, &mut one_more)? > 0 {
        return Err(ImageStop::Fault(ImageFault::TrailingBytes));
    }
    Ok(())
}

// Appends the texels of all later images of these sides, to the end of the input.
fn read_all_later<S: Shelf>(
    alloc: Global,
    shelf: &mut S,
    width: u32,
    height: u32,
    count: u32,
    ahead: Vec<u8>,
    texels: &mut Vec<u8>,
) -> Result<(), ImageStop>
    requires short { length ahead.items ≤ header_most }
    requires some { 1 ≤ count }
    ensures reads { (bytes : List ℕ) → with_front ahead.items (S.left shelf.old) ≡ Some bytes
        → AnswersWith (λ _ rest. (more : List ℕ) × (later_images width height 1 (count - 1) bytes
        ≡ Ok more) × (texels.new.items ≡ texels.old.items ++ more) × (rest ≡ []))
        (later_images width height 1 (count - 1) bytes) (S.left shelf.new) result }
    ensures early { (bytes whole : List ℕ) → with_front ahead.items (S.left shelf.old) ≡ Some bytes
        → from_image 1 whole ≡ bytes
        → (rest : List ℕ) → S.left shelf.new ≡ Some rest → IsEarly is_early header_most
        (λ fault. from_image (image_at fault) whole) rest result }
    ensures grown { OnOk result (length texels.new.items
        ≡ length texels.old.items + 4 * (width * height * (count - 1))) }
    ensures outside { OnlyTakes S.Shelf shelf.old shelf.new Stop.ReadFault result }
{
    let mut ahead = ahead;
    for image in 1..count {
        ahead = read_later(
            alloc,
            shelf,
            width,
            height,
            u64::from(image),
            &ahead,
            texels,
        )?;
    }
    end(shelf, &ahead)
}

// The header of image 0, if it fits the request.
fn read_first<S: Shelf>(alloc: Global, shelf: &mut S, want: &Want) -> Result<Begun, ImageStop>
    ensures reads { (bytes : List ℕ) → S.left shelf.old ≡ Some bytes
        → AnswersWith (λ begun rest. (first_header want.now bytes ≡ Ok begun.header)
        × (begun.front.items ++ rest ≡ bytes)) (first_header want.now bytes)
        (S.left shelf.new) result }
    ensures early { (bytes : List ℕ) → S.left shelf.old ≡ Some bytes → (rest : List ℕ)
        → S.left shelf.new ≡ Some rest → IsEarly is_early header_most (λ _. bytes) rest result }
    ensures image { IsOfImage 0 result }
    ensures suits { IfOk result (λ begun. Suits want.now begun.header.width begun.header.height) }
    ensures header { IfOk result (λ begun. IsHeader begun.header
        × (begun.header.size ≤ length begun.front.items)
        × (length begun.front.items ≤ header_most)) }
    ensures outside { OnlyTakes S.Shelf shelf.old shelf.new Stop.ReadFault result }
{
    let begun = read_header(alloc, shelf, &[], 0)?;
    first_fits(want, &begun.header)?;
    Ok(begun)
}

/// The requested images of the opened input, which is read to its end.
pub(crate) fn read_series<S: Shelf>(
    alloc: Global,
    shelf: &mut S,
    want: &Want,
) -> Result<Images, ImageStop>
    requires { 1 ≤ want.now.count }
    ensures reads { (bytes : List ℕ) → S.left shelf.old ≡ Some bytes
        → AnswersWith (λ images rest. (images_of want.now bytes ≡ Ok images) × (rest ≡ []))
        (images_of want.now bytes) (S.left shelf.new) result }
    ensures early { (bytes rest : List ℕ) → S.left shelf.old ≡ Some bytes → S.left shelf.new
        ≡ Some rest → IsEarly is_early header_most (λ fault. from_image (image_at fault) bytes)
        rest result }
    ensures valid { IfOk result IsValid }
    ensures wanted { IfOk result (IsWanted want.now) }
    ensures outside { OnlyTakes S.Shelf shelf.old shelf.new Stop.ReadFault result }
{
    let begun = read_first(alloc, shelf, want)?;
    let mut texels = Vec::new(alloc);
    let ahead = read_texels(alloc, shelf, 0, &begun, &mut texels)?;
    let PamHeader { width, height, .. } = begun.header;
    read_all_later(alloc, shelf, width, height, want.count, ahead, &mut texels)?;
    Ok(Images::from_raster(width, height, want.count, texels))
}
