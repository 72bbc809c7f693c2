// The levels of a file, read from the opened input of a shelf.
ghost use Rattle.std.specs.Prelude.{◌≡◌, ◌≤◌, ◌<◌, ◌*◌, ◌^◌, ◌++◌, ◌∷◌, ℕ, List, [], Some, Ok, length, take, drop, IfOk, OnOk, IsErrOf};
ghost use Rattle.tex_shelf.specs.Faults.{Rose};
ghost use Rattle.tex_shelf.specs.Files.{emptied};
ghost use Rattle.tex_shelf.specs.Frames.{OnlyReads};
ghost use Rattle.tex_shelf.specs.Stops.{Answers};
ghost use Rattle.images.specs.Pictures.{Pictures};
ghost use Rattle.texture.specs.Extents.{IsExtent};
ghost use Rattle.ktx_header.specs.Extents.{most_key_bytes};
ghost use Rattle.ktx_header.specs.Levels.{enough, level_of, levels_of, data_of};
ghost use Rattle.ktx_source.specs.Rasters.{level_bytes};
ghost use Rattle.ktx_source.specs.Sources.{IsLevelOf, AreLevels, levels_in};

use crate::front::SourceHeader;
use crate::raster::images_in;
use crate::sizes::{image_size, level_bytes};
use images::Images;
use ktx_header::{DataFault, end, enough, read_size, skip_keys};
use std::alloc::Global;
use tex_shelf::{Shelf, Stop, take_growing};

// The next bytes, after this number of bytes of the file.
fn read_bytes<S: Shelf>(
    alloc: Global,
    shelf: &mut S,
    count: u32,
    before: u64,
) -> Result<Vec<u8>, Stop<DataFault>>
    requires before { before < 2 ^ 62 }
    requires count { count ≤ 134217728 }
    ensures reads { (input : List ℕ) → S.left shelf.old ≡ Some input
        → Answers (λ bytes. (enough count (length input) before ≡ Ok tt)
        × (bytes.items ≡ take count input)) (enough count (length input) before)
        (S.left shelf.new) (drop count input) result }
    ensures full { IfOk result (λ bytes. length bytes.items ≡ count) }
    ensures read_fault { IsErrOf result Stop.ReadFault → Rose (S.read_faults shelf.old)
        (S.read_faults shelf.new) }
    ensures rest { OnlyReads S.Shelf shelf.old shelf.new }
{
    let mut bytes = Vec::new(alloc);
    let taken = take_growing(shelf, &mut bytes, count as usize)?;
    enough(count as usize, taken, before)?;
    Ok(bytes)
}

// Appends a level, after this number of bytes of the file.
fn read_level<S: Shelf>(
    alloc: Global,
    shelf: &mut S,
    levels: &mut Vec<Images>,
    header: &SourceHeader,
    level: u32,
    before: u64,
) -> Result<(), Stop<DataFault>>
    requires extent { IsExtent header.now.extent }
    requires level { level < header.now.extent.levels }
    requires before { before < 2 ^ 61 }
    ensures reads { (input : List ℕ) → S.left shelf.old ≡ Some input
        → Answers (λ _. (more : List Pictures)
        × (level_of header.now.order (levels_in header.now.format header.now.extent) level
        before input ≡ Ok more) × (levels.new.items ≡ levels.old.items ++ more))
        (level_of header.now.order (levels_in header.now.format header.now.extent) level before
        input) (S.left shelf.new)
        (drop (level_bytes header.now.format header.now.extent level) (drop 4 input)) result }
    ensures grown { OnOk result ((images : Pictures) × IsLevelOf header.now.extent level images
        × (levels.new.items ≡ levels.old.items ++ images ∷ [])) }
    ensures read_fault { IsErrOf result Stop.ReadFault → Rose (S.read_faults shelf.old)
        (S.read_faults shelf.new) }
    ensures rest { OnlyReads S.Shelf shelf.old shelf.new }
{
    let size = image_size(header.format, &header.extent, level);
    read_size(shelf, header.order, level, size, before)?;
    let count = level_bytes(header.format, &header.extent, level);
    let bytes = read_bytes(alloc, shelf, count, before + 4)?;
    let images = images_in(alloc, header.format, &header.extent, level, bytes)?;
    levels.push(images)?;
    Ok(())
}

// All levels after this number of bytes of the file, to its end.
fn read_levels<S: Shelf>(
    alloc: Global,
    shelf: &mut S,
    header: &SourceHeader,
    first: u64,
) -> Result<Vec<Images>, Stop<DataFault>>
    requires extent { IsExtent header.now.extent }
    requires first { first < 2 ^ 32 }
    ensures reads { (input : List ℕ) → S.left shelf.old ≡ Some input
        → Answers (λ levels. levels_of header.now.order
        (levels_in header.now.format header.now.extent) 0 header.now.extent.levels first
        input ≡ Ok levels.items)
        (levels_of header.now.order (levels_in header.now.format header.now.extent) 0
        header.now.extent.levels first input) (S.left shelf.new) [] result }
    ensures ended { OnOk result (S.left shelf.new ≡ emptied (S.left shelf.new)) }
    ensures full { IfOk result (λ levels. AreLevels header.now.extent levels.items) }
    ensures read_fault { IsErrOf result Stop.ReadFault → Rose (S.read_faults shelf.old)
        (S.read_faults shelf.new) }
    ensures rest { OnlyReads S.Shelf shelf.old shelf.new }
{
    let mut levels = Vec::new(alloc);
    let mut before = first;
    for level in 0..header.extent.levels {
        read_level(alloc, shelf, &mut levels, header, level, before)?;
        before += 4 + u64::from(level_bytes(header.format, &header.extent, level));
    }
    end(shelf)?;
    Ok(levels)
}

/// The images of all levels after a header, to the end of the file.
///
/// # Errors
///
/// `Fault` with the first fault of the data; `ReadFault` if a read failed; `NoMemory`.
pub fn read_data<S: Shelf>(
    alloc: Global,
    shelf: &mut S,
    header: &SourceHeader,
) -> Result<Vec<Images>, Stop<DataFault>>
    requires extent { IsExtent header.now.extent }
    requires keys { header.now.key_bytes ≤ most_key_bytes }
    ensures reads { (input : List ℕ) → S.left shelf.old ≡ Some input
        → Answers (λ levels. data_of header.now.order
        (levels_in header.now.format header.now.extent) header.now.extent.levels
        header.now.key_bytes input ≡ Ok levels.items)
        (data_of header.now.order (levels_in header.now.format header.now.extent)
        header.now.extent.levels header.now.key_bytes input) (S.left shelf.new) [] result }
    ensures ended { OnOk result (S.left shelf.new ≡ emptied (S.left shelf.new)) }
    ensures full { IfOk result (λ levels. AreLevels header.now.extent levels.items) }
    ensures read_fault { IsErrOf result Stop.ReadFault → Rose (S.read_faults shelf.old)
        (S.read_faults shelf.new) }
    ensures rest { OnlyReads S.Shelf shelf.old shelf.new }
{
    skip_keys(shelf, header.key_bytes)?;
    let first = 64 + u64::from(header.key_bytes);
    read_levels(alloc, shelf, header, first)
}
