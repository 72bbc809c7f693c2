// Images read from the opened input of a shelf.
ghost use Rattle.std.specs.Prelude.{◌≡◌, ◌≤◌, ℕ, List, Some, is_some, IsErrOf, IfOk};
ghost use Rattle.tex_shelf.specs.Faults.{Rose};
ghost use Rattle.tex_shelf.specs.Frames.{OnlyReads};
ghost use Rattle.tex_shelf.specs.Stops.{IsEarly, FaultsCome, SuccessComes};
ghost use Rattle.pam_header.specs.Headers.{header_most};
ghost use Rattle.pam_header.specs.Faults.{image_at, is_early};
ghost use Rattle.images.specs.Pictures.{IsValid};
ghost use Rattle.pam_image.specs.Reading.{images_of, Reads, IsWanted};
ghost use Rattle.pam_image.specs.Steps.{from_image};

use crate::series::read_series;
use crate::{ImageFault, ImageStop, Images, Want};
use std::alloc::Global;
use tex_shelf::{Shelf, Stop};

/// Reads the opened input to its end: the requested images, one after another, each with its header
/// and 1 to 4 bytes per texel, which are widened to red, green, blue and alpha. The sides are 1 to
/// 8192, all images have those of image 0, and together they have at most 33,554,432 texels.
///
/// For an image with a fault in its header at most 4,096 bytes are taken, and memory is taken as
/// bytes arrive.
///
/// # Errors
///
/// `Fault` for an input that is something else, with the first fault; `ReadFault` if a read failed;
/// `NoMemory`.
pub fn read_images<S: Shelf>(alloc: Global, shelf: &mut S, want: &Want) -> Result<Images, ImageStop>
    requires { 1 ≤ want.now.count }

    ensures reads { Reads want.now (S.left shelf.old) (S.left shelf.new) result }
    ensures first_fault { FaultsCome (images_of want.now) (S.left shelf.old)
        (S.read_faults shelf.old)
        (S.read_faults shelf.new) result }
    ensures complete { SuccessComes (images_of want.now) (S.left shelf.old)
        (S.read_faults shelf.old)
        (S.read_faults shelf.new) result }
    ensures early { (bytes rest : List ℕ) → S.left shelf.old ≡ Some bytes → S.left shelf.new
        ≡ Some rest → IsEarly is_early header_most (λ fault. from_image (image_at fault) bytes)
        rest result }
    ensures valid { IfOk result IsValid }
    ensures wanted { IfOk result (IsWanted want.now) }
    ensures read_fault { IsErrOf result Stop.ReadFault → Rose (S.read_faults shelf.old)
        (S.read_faults shelf.new) }
    ensures told { is_some (S.left shelf.new) ≡ is_some (S.left shelf.old) }
    ensures rest { OnlyReads S.Shelf shelf.old shelf.new }
{
    read_series(alloc, shelf, want)
}
