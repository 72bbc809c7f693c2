// The findings for an image.
ghost use Rattle.std.specs.Prelude.{◌≡◌, ◌<◌, ◌≤◌, ◌*◌, ◌+◌, ◌/◌, ◌%◌, ◌^◌, max, length, slice_index_or, IsTrue};
ghost use Rattle.astc_model.specs.Footprints.{is_footprint};
ghost use Rattle.astc_model.specs.FootprintNames.{sides_of};
ghost use Rattle.astc_model.specs.Limits.{most_texels};
ghost use Rattle.images.specs.Pictures.{Pictures};
ghost use Rattle.texture.specs.Shapes.{image_count};
ghost use Rattle.texture.specs.Places.{HasPlace};
ghost use Rattle.astc_audit.specs.Audits.{AreJudged, IsAudited, HasLevels};

use crate::gathering::settings_for;
use crate::verdict::judge;
use astc_model::{ChannelWeights, Preset, for_footprint};
use astc_words::AuditJob;
use encoder::{Encoder, SearchView};
use images::{Images, source_at};
use ktx_file::Ktx;
use texture::ImagePlace;

/// The findings for the blocks of an image.
#[derive(Clone, Copy, Debug, PartialEq, Eq)]
pub struct Findings {
    /// The number of blocks.
    pub blocks: u32,
    /// The sum of their errors.
    pub error: u64,
    /// The number of bad blocks.
    pub bad: u32,
}

// The findings for blocks in rows of this number.
fn judge_blocks<const W: usize, const H: usize>(
    encoder: &Encoder<W, H>,
    blocks: &[[u8; 16]],
    columns: u32,
    images: &Images,
    image: u32,
) -> Findings
    requires footprint { IsTrue (is_footprint W H) }
    requires few { length blocks.now ≤ most_texels }
    requires columns { 1 ≤ columns }
    requires image { image < images.now.count }
    ensures judged { AreJudged W H encoder.now.flavour encoder.now.weights encoder.now.preset
        images.now image columns blocks.now (length blocks.now) result }
    ensures small { result.error ≤ length blocks.now * 2 ^ 32 }
{
    let mut findings = Findings {
        blocks: 0,
        error: 0,
        bad: 0,
    };
    for k in 0..blocks.len() {
        let column = k as u32 % columns;
        let row = k as u32 / columns;
        let source = source_at::<W, H>(images, image, column, row);
        let (error, bad) = judge(encoder, &blocks[k], &source);
        findings.blocks += 1;
        findings.error += u64::from(error);
        findings.bad += bad;
    }
    findings
}

// The findings of an encoder for an image of a texture whose levels were made of these images.
pub(crate) fn judge_image<const W: usize, const H: usize>(
    encoder: &Encoder<W, H>,
    ktx: &Ktx,
    levels: &[Images],
    at: ImagePlace,
) -> Findings
    requires footprint { IsTrue (is_footprint W H) }
    requires sides { sides_of ktx.now.shape.name ≡ (W, H) }
    requires flavour { encoder.now.flavour ≡ ktx.now.shape.flavour }
    requires levels { HasLevels ktx.now.shape levels.now }
    requires place { HasPlace ktx.now.shape at }
    ensures audited { (d : Pictures)
        → IsAudited ktx.now (slice_index_or levels.now at.level d) encoder.now.preset
        encoder.now.weights at result }
    ensures small { image_count ktx.now.shape * result.error ≤ most_texels * 2 ^ 32 }
{
    let layout = ktx.layout();
    let image = at.element * layout.shape().faces + at.face;
    let first = layout.first_block(at.level, image) as usize;
    let count = layout.image_blocks(at.level) as usize;
    judge_blocks(
        encoder,
        &ktx.blocks()[first..first + count],
        layout.columns(at.level),
        &levels[at.level as usize],
        image,
    )
}

// The findings for the image, without tables made before the call.
fn judge_image_alone<const W: usize, const H: usize>(
    ktx: &Ktx,
    levels: &[Images],
    at: ImagePlace,
    preset: Preset,
    weights: ChannelWeights,
) -> Findings
    requires footprint { IsTrue (is_footprint W H) }
    requires sides { sides_of ktx.now.shape.name ≡ (W, H) }
    requires levels { HasLevels ktx.now.shape levels.now }
    requires place { HasPlace ktx.now.shape at }
    ensures { (d : Pictures)
        → IsAudited ktx.now (slice_index_or levels.now at.level d) preset weights at result }
{
    let job = AuditJob { preset, weights };
    let encoder = Encoder::<W, H>::new(settings_for(&job, ktx.shape().flavour), SearchView::none());
    judge_image(&encoder, ktx, levels, at)
}

/// The findings for an image of a texture whose levels were made of these images: the number of
/// blocks, the sum of their errors, and the number of bad blocks, unreadable blocks among them. The
/// call takes no memory.
pub fn audit_image(
    ktx: &Ktx,
    levels: &[Images],
    level: u32,
    element: u32,
    face: u32,
    preset: Preset,
    weights: ChannelWeights,
) -> Findings
    requires levels { HasLevels ktx.now.shape levels.now }
    requires level { level < ktx.now.shape.levels }
    requires element { element < max 1 ktx.now.shape.elements }
    requires face { face < ktx.now.shape.faces }
    ensures audited { (d : Pictures)
        → IsAudited ktx.now (slice_index_or levels.now level d) preset weights
        (record { level = level; element = element; face = face }) result }
{
    let at = ImagePlace {
        level,
        element,
        face,
    };
    for_footprint!(
        ktx.shape().name,
        judge_image_alone(ktx, levels, at, preset, weights)
    )
}
