// Hashes and partitions.
ghost use Rattle.std.specs.Prelude.{◌<◌, ◌≤◌, IsTrue};
ghost use Rattle.astc_model.specs.Footprints.{is_footprint};

use astc_model::{FootprintName, for_footprint};
use case_files::{bad_row, number, numbers, short, small};
use partition_hash::{hash52, part_of};
use std::alloc::{AllocError, Global};
use std::io;

/// The hash of a number.
pub fn hash_answer(alloc: Global, words: &str) -> io::Result<String> {
    Ok(format!(in alloc; "{:08X}", hash52(number(words)?))?)
}

// The parts of the texels, by rows.
fn told_parts<const W: usize, const H: usize>(
    alloc: Global,
    parts: u8,
    seed: u16,
) -> Result<String, AllocError>
    requires footprint { IsTrue (is_footprint W H) }
    requires some { 1 ≤ parts }
    requires few { parts ≤ 4 }
    requires seed { seed < 1024 }
{
    let mut text = String::new(alloc);
    for p in 0..W * H {
        let (x, y) = (p % W, p / W);
        if y < H {
            let gap = if x == 0 && y > 0 { " " } else { "" };
            let part = part_of::<W, H>(parts, seed, x as u8, y as u8);
            text.push_str(format!(in alloc; "{gap}{part}")?.as_str())?;
        }
    }
    Ok(text)
}

// The parts on a footprint, of which there are one to four.
fn parts_on(alloc: Global, name: FootprintName, parts: u8, seed: u16) -> io::Result<String> {
    if parts < 1 || parts > 4 || seed >= 1024 {
        return Err(bad_row());
    }
    Ok(for_footprint!(name, told_parts(alloc, parts, seed))?)
}

/// The parts of the texels: the words are the footprint, the number of parts, and the seed.
pub fn parts_answer(alloc: Global, words: &str) -> io::Result<String> {
    let (name, rest) = words.split_once(' ').unwrap_or((words, ""));
    let [parts, seed] = numbers::<2>(rest)?;
    match FootprintName::from_word(name) {
        Some(name) => parts_on(alloc, name, small(parts)?, short(seed)?),
        None => Err(bad_row()),
    }
}
