// The requests of a job.
ghost use Rattle.std.specs.Prelude.{◌≡◌, ◌≤◌};
ghost use Rattle.astc_model.specs.Chains.{full_levels_of};
ghost use Rattle.images.specs.Pictures.{IsValid as AreImages};
ghost use Rattle.pam_image.specs.Reading.{IsWanted};
ghost use Rattle.packing.specs.Packed.{want_of, levels_of, flavour_of, settings_of, options_of, shape_of, faces_of};

use astc_model::{Flavour, full_levels};
use astc_words::{Levels, PackJob};
use encoder::Settings;
use images::Images;
use packed_levels::PackOptions;
use pam_image::Want;
use texture::{Layout, Shape};

// The faces of each element.
fn faces_of(job: &PackJob) -> u32
    ensures exact { result ≡ faces_of job.now }
    ensures some { 1 ≤ result }
    ensures most { result ≤ 6 }
{
    if job.cube { 6 } else { 1 }
}

/// The request for the images.
pub fn want_of(job: &PackJob) -> Want
    ensures exact { result ≡ want_of job.now }
    ensures some { 1 ≤ result.count }
{
    Want {
        count: job.elements.get().max(1) * faces_of(job),
        cube: job.cube,
        sides: None,
    }
}

// The number of levels for images of these sides.
fn levels_of(levels: Levels, width: u32, height: u32) -> u32
    requires width_some { 1 ≤ width }
    requires width_most { width ≤ 8192 }
    requires height_some { 1 ≤ height }
    requires height_most { height ≤ 8192 }
    ensures exact { result ≡ levels_of levels width height }
    ensures some { 1 ≤ result }
    ensures few { result ≤ 14 }
    ensures most { result ≤ full_levels_of width height }
{
    let full = full_levels(width, height);
    match levels {
        Levels::Number(n) => n.get().min(full),
        Levels::Full => full,
    }
}

/// The flavour that a job names.
pub fn flavour_of(job: &PackJob) -> Flavour
    ensures { result ≡ flavour_of job.now }
{
    if job.srgb {
        Flavour::Srgb
    } else {
        Flavour::Linear
    }
}

/// The settings for the blocks. With `fits`, fitted blocks count as proposals.
pub fn settings_of(job: &PackJob, fits: bool) -> Settings
    ensures { result ≡ settings_of job.now fits }
{
    Settings {
        preset: job.preset,
        flavour: flavour_of(job),
        weights: job.weights,
        fits,
    }
}

/// The options of a pack's blocks. An advised job queries the advisers of a pool, and fits blocks
/// as proposals if the pool fits; a fitted job fits them whichever the pool.
pub fn options_of(job: &PackJob, fits: bool) -> PackOptions
    ensures { result ≡ options_of job.now fits }
{
    PackOptions {
        settings: settings_of(job, (job.advised && fits) || job.fitted),
        advised: job.advised,
    }
}

/// The layout of the texture.
pub fn layout_of(job: &PackJob, images: &Images) -> Layout
    requires images { AreImages images.now }
    requires wanted { IsWanted (want_of job.now) images.now }
    ensures { result ≡ shape_of job.now images.now }
{
    Layout::new(Shape {
        name: job.name,
        flavour: flavour_of(job),
        width: images.width(),
        height: images.height(),
        elements: job.elements.get(),
        faces: faces_of(job),
        levels: levels_of(job.levels, images.width(), images.height()),
    })
}
