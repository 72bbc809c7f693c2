// The blocks of a texture, settled again.
ghost use Rattle.std.specs.Prelude.{◌≡◌, IfOk};
ghost use Rattle.images.specs.Pictures.{IsValid as AreImages};
ghost use Rattle.pam_image.specs.Reading.{IsWanted};
ghost use Rattle.astc_audit.specs.Ends.{want_of};
ghost use Rattle.polishing.specs.Steps.{ArePolished, inputs_of, blocks_of};

use astc_audit::settings_for;
use astc_words::AuditJob;
use images::{Images, chain};
use ktx_file::Ktx;
use packed_levels::{BlockRange, SettledBlocks, settle_range};
use std::alloc::Global;
use tex_shelf::NoMemory;

// Settles each block of a texture again for the mip chain of the images. The texture's own block is
// a proposal.
pub(crate) fn settle_anew(
    alloc: Global,
    job: &AuditJob,
    ktx: &Ktx,
    images: Images,
) -> Result<SettledBlocks, NoMemory>
    requires images { AreImages images }
    requires wanted { IsWanted (want_of ktx.now.shape) images }
    ensures { IfOk result (λ done. ArePolished job.now (inputs_of ktx.now images)
        (blocks_of done.blocks.items done.errors.items)) }
{
    let layout = ktx.layout();
    let settings = settings_for(job, layout.shape().flavour);
    let levels = chain(alloc, images, layout.levels())?;
    let range = BlockRange {
        start: 0,
        count: layout.all_blocks(),
    };
    Ok(settle_range(alloc, &layout, &settings, &levels, range, ktx.blocks())?)
}
