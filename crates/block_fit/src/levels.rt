// Levels of colour integers.
ghost use Rattle.std.specs.Prelude.{◌≤◌, IfSome};
ghost use Rattle.astc_model.specs.Levels.{count_of};
ghost use Rattle.astc_model.specs.Modes.{IsInModeRange};
ghost use Rattle.astc_model.specs.Shapes.{weight_count};

use astc_model::{Level, Mode};
use block_mode::colour_level;

// How many values colour integers have at each level, the greatest first.
static COUNTS: [u16; 17] = [
    256, 192, 160, 128, 96, 80, 64, 48, 40, 32, 24, 20, 16, 12, 10, 8, 6,
];

/// The levels of colour integers, by the bits that are left for them and by how many pairs of them
/// there are.
#[derive(Clone, Copy)]
pub struct ColourLevels {
    by_room: [[Option<Level>; 10]; 112],
}

// The greatest level of this number of pairs in this number of bits.
fn level_in(room: u32, pairs: u32) -> Option<Level> {
    for count in &COUNTS {
        let level = Level::of(*count)?;
        if level.bits(pairs.min(32) * 2) <= room {
            return Some(level);
        }
    }
    None
}

// The levels in this number of bits.
fn levels_in(room: u32) -> [Option<Level>; 10] {
    let mut levels = [None; 10];
    for pairs in 0..10u32 {
        levels[pairs as usize] = level_in(room, pairs);
    }
    levels
}

impl ColourLevels {
    /// All of them.
    pub fn new() -> ColourLevels {
        let mut by_room = [[None; 10]; 112];
        for room in 0..112u32 {
            by_room[room as usize] = levels_in(room);
        }
        ColourLevels { by_room }
    }

    /// The level of this number of pairs in this number of bits; None if they do not fit.
    #[inline]
    pub fn of(&self, room: usize, pairs: usize) -> Option<Level>
        ensures { IfSome result (λ level. 6 ≤ count_of level) }
    {
        let level = self.by_room.get(room)?.get(pairs).copied()??;
        if level.count() < 6 {
            return None;
        }
        Some(level)
    }
}

/// The level of this number of colour integers in blocks of a mode; None if they do not fit.
pub fn level_of(mode: &Mode, parts: usize, selector: u8, integers: usize) -> Option<Level>
    requires range { IsInModeRange mode.now }
    requires weights { weight_count mode.now ≤ 64 }
    ensures { IfSome result (λ level. 6 ≤ count_of level) }
{
    if parts > 4 || integers > 18 {
        return None;
    }
    colour_level(mode, parts as u8, selector, integers as u8)
}
