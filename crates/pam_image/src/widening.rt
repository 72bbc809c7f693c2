// Texels of four bytes from rasters of other depths.
ghost use Rattle.std.specs.Prelude.{◌≡◌, ◌++◌, OnOk};
ghost use Rattle.pam_image.specs.Reading.{from_grey, from_grey_alpha, from_rgb, widened};

use std::alloc::AllocError;

fn push_grey(texels: &mut Vec<u8>, raster: &[u8]) -> Result<(), AllocError>
    ensures { OnOk result (texels.new.items ≡ texels.old.items ++ from_grey raster.now) }
{
    let mut rest = raster;
    while let [v, behind @ ..] = rest {
        texels.extend_from_slice(&[*v, *v, *v, 255])?;
        rest = behind;
    }
    Ok(())
}

fn push_grey_alpha(texels: &mut Vec<u8>, raster: &[u8]) -> Result<(), AllocError>
    ensures { OnOk result (texels.new.items ≡ texels.old.items ++ from_grey_alpha raster.now) }
{
    let mut rest = raster;
    while let [v, a, behind @ ..] = rest {
        texels.extend_from_slice(&[*v, *v, *v, *a])?;
        rest = behind;
    }
    Ok(())
}

fn push_rgb(texels: &mut Vec<u8>, raster: &[u8]) -> Result<(), AllocError>
    ensures { OnOk result (texels.new.items ≡ texels.old.items ++ from_rgb raster.now) }
{
    let mut rest = raster;
    while let [r, g, b, behind @ ..] = rest {
        texels.extend_from_slice(&[*r, *g, *b, 255])?;
        rest = behind;
    }
    Ok(())
}

/// Appends the texels of a raster of this depth, four bytes each.
#[tactic(auto, unfolding(crate::specs::Reading::widened))]
pub(crate) fn push_texels(texels: &mut Vec<u8>, depth: u32, raster: &[u8]) -> Result<(), AllocError>
    ensures { OnOk result (texels.new.items ≡ texels.old.items ++ widened depth raster.now) }
{
    match depth {
        1 => push_grey(texels, raster),
        2 => push_grey_alpha(texels, raster),
        3 => push_rgb(texels, raster),
        _ => texels.extend_from_slice(raster),
    }
}
