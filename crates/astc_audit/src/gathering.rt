// The findings for all images of a texture.
ghost use Rattle.std.specs.Prelude.{◌≡◌, ◌*◌, IfOk, IsTrue};
ghost use Rattle.astc_model.specs.Footprints.{is_footprint};
ghost use Rattle.astc_model.specs.FootprintNames.{sides_of};
ghost use Rattle.images.specs.Chains.{chain_of};
ghost use Rattle.texture.specs.Shapes.{image_count};
ghost use Rattle.astc_audit.specs.Audits.{settings_for, AreAudited, HasLevels, all_images};
ghost use Rattle.astc_audit.specs.Reports.{error_in, bad_in};

use crate::findings::{Findings, judge_image};
use astc_model::{Flavour, for_footprint};
use astc_words::AuditJob;
use encoder::{Encoder, Settings, tables_for};
use images::{Images, chain};
use ktx_file::Ktx;
use std::alloc::Global;
use tex_shelf::NoMemory;
use texture::ImagePlace;

/// The place of an image, and the findings for it.
#[derive(Clone, Copy, Debug, PartialEq, Eq)]
pub struct AuditedImage {
    pub place: ImagePlace,
    pub findings: Findings,
}

/// The findings for each image of a texture, and the sums over all of them.
#[derive(Drop)]
pub(crate) struct Audit {
    pub images: Vec<AuditedImage>,
    pub error: u64,
    pub bad: u64,
}

/// The settings to judge and polish the blocks of a texture of this flavour.
pub fn settings_for(job: &AuditJob, flavour: Flavour) -> Settings
    ensures { result ≡ settings_for job.now flavour }
{
    Settings {
        preset: job.preset,
        flavour,
        weights: job.weights,
        fits: false,
    }
}

// Judges each image against the levels that the texture was made of, level by level.
fn audit_all<const W: usize, const H: usize>(
    alloc: Global,
    ktx: &Ktx,
    levels: &[Images],
    job: &AuditJob,
) -> Result<Audit, NoMemory>
    requires footprint { IsTrue (is_footprint W H) }
    requires sides { sides_of ktx.now.shape.name ≡ (W, H) }
    requires levels { HasLevels ktx.now.shape levels.now }
    ensures audited { IfOk result
        (λ audit. AreAudited ktx.now levels.now job.now.preset job.now.weights
        (all_images ktx.now) audit.images.items) }
    ensures error { IfOk result (λ audit. audit.error ≡ error_in audit.images.items) }
    ensures bad { IfOk result (λ audit. audit.bad ≡ bad_in audit.images.items) }
{
    let layout = ktx.layout();
    let tables = tables_for::<W, H>(alloc, job.preset, levels)?;
    let encoder = Encoder::new(settings_for(job, layout.shape().flavour), tables.view());
    let count = layout.image_count();
    let mut images = Vec::new(alloc);
    let mut error = 0u64;
    let mut bad = 0u64;
    for i in 0..layout.levels() * count {
        let place = layout.image_place(i / count, i % count);
        let findings = judge_image(&encoder, ktx, levels, place);
        images.push(AuditedImage { place, findings })?;
        error += findings.error;
        bad += u64::from(findings.bad);
    }
    Ok(Audit { images, error, bad })
}

// The audit of a texture of any footprint.
fn audit_named(
    alloc: Global,
    ktx: &Ktx,
    levels: &[Images],
    job: &AuditJob,
) -> Result<Audit, NoMemory>
    requires { HasLevels ktx.now.shape levels.now }
    ensures audited { IfOk result
        (λ audit. AreAudited ktx.now levels.now job.now.preset job.now.weights
        (all_images ktx.now) audit.images.items) }
    ensures error { IfOk result (λ audit. audit.error ≡ error_in audit.images.items) }
    ensures bad { IfOk result (λ audit. audit.bad ≡ bad_in audit.images.items) }
{
    for_footprint!(ktx.shape().name, audit_all(alloc, ktx, levels, job))
}

/// Judges each image of a texture against these images and their mip chain, level by level.
///
/// # Errors
///
/// `NoMemory`.
pub(crate) fn audit_chain(
    alloc: Global,
    ktx: &Ktx,
    images: Images,
    job: &AuditJob,
) -> Result<Audit, NoMemory>
    requires { images.count ≡ image_count ktx.now.shape }
    ensures audited { IfOk result
        (λ audit. AreAudited ktx.now (chain_of images ktx.now.shape.levels) job.now.preset
        job.now.weights (all_images ktx.now) audit.images.items) }
    ensures error { IfOk result (λ audit. audit.error ≡ error_in audit.images.items) }
    ensures bad { IfOk result (λ audit. audit.bad ≡ bad_in audit.images.items) }
{
    let levels = chain(alloc, images, ktx.shape().levels)?;
    audit_named(alloc, ktx, &levels, job)
}
