// Inputs of commands.
ghost use Rattle.std.specs.Prelude.{◌≤◌, IfOk};
ghost use Rattle.tex_shelf.specs.Frames.{OnlyReads};
ghost use Rattle.images.specs.Pictures.{IsValid};
ghost use Rattle.ktx_file.specs.Files.{ktx_of};
ghost use Rattle.pam_image.specs.Reading.{images_of, IsWanted};
ghost use Rattle.outcomes.specs.Causes.{Loads};

use images::Images;
use ktx_file::{Ktx, KtxStop, read_file};
use pam_image::{ImageStop, Want, read_images};
use std::alloc::Global;
use tex_shelf::Shelf;

/// Opens the file with this name and reads it as images.
///
/// # Errors
///
/// `Fault` for a file that is not a PAM file of such images, `ReadFault` if opening or reading
/// failed, `NoMemory`. No file changes.
pub fn load_images<S: Shelf>(
    alloc: Global,
    shelf: &mut S,
    name: &str,
    want: &Want,
) -> Result<Images, ImageStop>
    requires can_open { S.can_open shelf.old name.now }
    requires some { 1 ≤ want.now.count }
    ensures loads { Loads (images_of want.now) (S.files shelf.old) name.now
        (S.read_faults shelf.old) (S.read_faults shelf.new) result }
    ensures valid { IfOk result IsValid }
    ensures wanted { IfOk result (IsWanted want.now) }
    ensures rest { OnlyReads S.Shelf shelf.old shelf.new }
{
    shelf.open(name)?;
    read_images(alloc, shelf, want)
}

/// Opens the file of this name and reads it as a texture in blocks.
///
/// # Errors
///
/// `Fault` for a file that is not such a texture, `ReadFault` if opening or reading failed,
/// `NoMemory`. No file changes.
pub fn load_ktx<S: Shelf>(alloc: Global, shelf: &mut S, name: &str) -> Result<Ktx, KtxStop>
    requires can_open { S.can_open shelf.old name.now }
    ensures loads { Loads ktx_of (S.files shelf.old) name.now (S.read_faults shelf.old)
        (S.read_faults shelf.new) result }
    ensures rest { OnlyReads S.Shelf shelf.old shelf.new }
{
    shelf.open(name)?;
    read_file(alloc, shelf)
}
