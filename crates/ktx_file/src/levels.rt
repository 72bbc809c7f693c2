// The levels of a file, read from the opened input of a shelf.
ghost use Rattle.std.specs.Prelude.{◌≡◌, ◌≤◌, ◌<◌, ◌*◌, ◌^◌, ◌++◌, ℕ, List, [], Some, Ok, length, take, drop, IfOk, OnOk, IsErrOf};
ghost use Rattle.tex_shelf.specs.Faults.{Rose};
ghost use Rattle.tex_shelf.specs.Files.{emptied};
ghost use Rattle.tex_shelf.specs.Frames.{OnlyReads};
ghost use Rattle.tex_shelf.specs.Stops.{Answers};
ghost use Rattle.ktx_header.specs.Extents.{most_key_bytes};
ghost use Rattle.ktx_header.specs.Levels.{enough, level_of, levels_of, data_of};
ghost use Rattle.tex_shelf.specs.Pieces.{pieces_at};
ghost use Rattle.texture.specs.Shapes.{level_blocks};
ghost use Rattle.ktx_file.specs.Files.{AreBlocks, levels_in};
ghost use Rattle.ktx_file.specs.Reading.{IsGrown};

use crate::framing::level_size;
use crate::front::KtxHeader;
use ktx_header::{DataFault, WordOrder, end, enough, read_size, skip_keys};
use std::alloc::Global;
use tex_shelf::{Shelf, Stop, take_pieces};
use texture::Layout;

fn read_blocks<S: Shelf>(
    shelf: &mut S,
    blocks: &mut Vec<[u8; 16]>,
    count: u32,
    before: u64,
) -> Result<(), Stop<DataFault>>
    requires before { before < 2 ^ 62 }
    requires count { count ≤ 33554432 }
    ensures reads { (input : List ℕ) → S.left shelf.old ≡ Some input
        → Answers (λ _. (enough (16 * count) (length input) before ≡ Ok tt)
        × (blocks.new.items ≡ blocks.old.items ++ pieces_at 16 count
        (take (16 * count) input))) (enough (16 * count) (length input) before)
        (S.left shelf.new) (drop (16 * count) input) result }
    ensures grown { OnOk result (IsGrown count blocks.old.items blocks.new.items) }
    ensures read_fault { IsErrOf result Stop.ReadFault → Rose (S.read_faults shelf.old)
        (S.read_faults shelf.new) }
    ensures rest { OnlyReads S.Shelf shelf.old shelf.new }
{
    let taken = take_pieces(shelf, blocks, count as usize)?;
    enough(16 * count as usize, taken, before)?;
    Ok(())
}

// A level after this number of bytes of the file.
fn read_level<S: Shelf>(
    shelf: &mut S,
    blocks: &mut Vec<[u8; 16]>,
    order: WordOrder,
    layout: &Layout,
    level: u32,
    before: u64,
) -> Result<(), Stop<DataFault>>
    requires level { level < layout.now.levels }
    requires before { before < 2 ^ 61 }
    ensures reads { (input : List ℕ) → S.left shelf.old ≡ Some input
        → Answers (λ _. (more : List (List ℕ))
        × (level_of order (levels_in layout.now) level before input ≡ Ok more)
        × (blocks.new.items ≡ blocks.old.items ++ more))
        (level_of order (levels_in layout.now) level before input) (S.left shelf.new)
        (drop (16 * level_blocks layout.now level) (drop 4 input)) result }
    ensures grown { OnOk result
        (IsGrown (level_blocks layout.now level) blocks.old.items blocks.new.items) }
    ensures read_fault { IsErrOf result Stop.ReadFault → Rose (S.read_faults shelf.old)
        (S.read_faults shelf.new) }
    ensures rest { OnlyReads S.Shelf shelf.old shelf.new }
{
    read_size(
        shelf,
        order,
        level,
        level_size(&layout.shape(), level),
        before,
    )?;
    read_blocks(shelf, blocks, layout.level_blocks(level), before + 4)
}

// All levels after this number of bytes of the file, to its end.
fn read_levels<S: Shelf>(
    alloc: Global,
    shelf: &mut S,
    order: WordOrder,
    layout: &Layout,
    first: u64,
) -> Result<Vec<[u8; 16]>, Stop<DataFault>>
    requires first { first < 2 ^ 32 }
    ensures reads { (input : List ℕ) → S.left shelf.old ≡ Some input
        → Answers (λ blocks. levels_of order (levels_in layout.now) 0 layout.now.levels first input
        ≡ Ok blocks.items) (levels_of order (levels_in layout.now) 0 layout.now.levels first
        input) (S.left shelf.new) [] result }
    ensures ended { OnOk result (S.left shelf.new ≡ emptied (S.left shelf.new)) }
    ensures full { IfOk result (λ blocks. AreBlocks layout.now blocks.items) }
    ensures read_fault { IsErrOf result Stop.ReadFault → Rose (S.read_faults shelf.old)
        (S.read_faults shelf.new) }
    ensures rest { OnlyReads S.Shelf shelf.old shelf.new }
{
    let mut blocks = Vec::new(alloc);
    let mut before = first;
    for level in 0..layout.levels() {
        read_level(shelf, &mut blocks, order, layout, level, before)?;
        before += 4 + 16 * u64::from(layout.level_blocks(level));
    }
    end(shelf)?;
    Ok(blocks)
}

/// The blocks of all levels after a header, to the end of the file.
///
/// # Errors
///
/// `Fault` with the first fault of the data; `ReadFault` if a read failed; `NoMemory`.
pub fn read_data<S: Shelf>(
    alloc: Global,
    shelf: &mut S,
    header: &KtxHeader,
) -> Result<Vec<[u8; 16]>, Stop<DataFault>>
    requires keys { header.now.key_bytes ≤ most_key_bytes }
    ensures reads { (input : List ℕ) → S.left shelf.old ≡ Some input
        → Answers (λ blocks. data_of header.now.order
        (levels_in header.now.layout) header.now.layout.levels header.now.key_bytes input
        ≡ Ok blocks.items)
        (data_of header.now.order (levels_in header.now.layout) header.now.layout.levels
        header.now.key_bytes input) (S.left shelf.new) [] result }
    ensures ended { OnOk result (S.left shelf.new ≡ emptied (S.left shelf.new)) }
    ensures full { IfOk result (λ blocks. AreBlocks header.now.layout blocks.items) }
    ensures read_fault { IsErrOf result Stop.ReadFault → Rose (S.read_faults shelf.old)
        (S.read_faults shelf.new) }
    ensures rest { OnlyReads S.Shelf shelf.old shelf.new }
{
    skip_keys(shelf, header.key_bytes)?;
    let first = 64 + u64::from(header.key_bytes);
    read_levels(alloc, shelf, header.order, &header.layout, first)
}
