// Headers compared with the request.
ghost use Rattle.std.specs.Prelude.{◌≡◌, ◌≤◌, ◌*◌, true, IfErr, IfSome, OnOk};
ghost use Rattle.astc_model.specs.Limits.{most_texels};
ghost use Rattle.pam_header.specs.Faults.{image_at};
ghost use Rattle.pam_image.specs.Reading.{with_sides, as_face, not_too_many, first_fits, later_fits};
ghost use Rattle.pam_image.specs.Steps.{Suits};

use crate::Want;
use pam_header::{ImageFault, PamHeader};

fn with_sides(sides: Option<(u32, u32)>, header: &PamHeader) -> Result<(), ImageFault>
    ensures same { result ≡ with_sides sides header.now }
    ensures image { IfErr result (λ fault. image_at fault ≡ 0) }
    ensures fits { OnOk result
        (IfSome sides (λ s. (header.now.width ≡ s.0) × (header.now.height ≡ s.1))) }
{
    match sides {
        None => Ok(()),
        Some((width, height)) => {
            if header.width == width && header.height == height {
                Ok(())
            } else {
                Err(ImageFault::WrongSides(u64::from(header.width), u64::from(header.height)))
            }
        }
    }
}

fn as_face(cube: bool, header: &PamHeader) -> Result<(), ImageFault>
    ensures same { result ≡ as_face cube header.now }
    ensures image { IfErr result (λ fault. image_at fault ≡ 0) }
    ensures fits { OnOk result (cube ≡ true → header.now.width ≡ header.now.height) }
{
    if cube && header.width != header.height {
        return Err(ImageFault::NotSquare(u64::from(header.width), u64::from(header.height)));
    }
    Ok(())
}

fn not_too_many(count: u32, header: &PamHeader) -> Result<(), ImageFault>
    requires width { header.now.width ≤ 8192 }
    requires height { header.now.height ≤ 8192 }
    ensures same { result ≡ not_too_many count header.now }
    ensures image { IfErr result (λ fault. image_at fault ≡ 0) }
    ensures fits { OnOk result (header.now.width * header.now.height * count ≤ most_texels) }
{
    let texels = u64::from(header.width) * u64::from(header.height) * u64::from(count);
    if texels > 33_554_432 {
        return Err(ImageFault::TooManyTexels(texels));
    }
    Ok(())
}

/// Whether the header of image 0 fits the request.
#[tactic(auto, unfolding(crate::specs::Reading::first_fits))]
pub(crate) fn first_fits(want: &Want, header: &PamHeader) -> Result<(), ImageFault>
    requires width { header.now.width ≤ 8192 }
    requires height { header.now.height ≤ 8192 }
    ensures same { result ≡ first_fits want.now header.now }
    ensures image { IfErr result (λ fault. image_at fault ≡ 0) }
    ensures fits { OnOk result (Suits want.now header.now.width header.now.height) }
{
    with_sides(want.sides, header)?;
    as_face(want.cube, header)?;
    not_too_many(want.count, header)
}

/// Whether the header of a later image has the sides of image 0.
pub(crate) fn later_fits(
    width: u32,
    height: u32,
    image: u64,
    header: &PamHeader,
) -> Result<(), ImageFault>
    ensures same { result ≡ later_fits width height image header.now }
    ensures image { IfErr result (λ fault. image_at fault ≡ image) }
    ensures fits { OnOk result ((header.now.width ≡ width) × (header.now.height ≡ height)) }
{
    if header.width == width && header.height == height {
        Ok(())
    } else {
        Err(ImageFault::SizesDiffer(image))
    }
}
