//! Measures the time to settle blocks, and the number of texels that are evaluated for them.
//! Without words the program settles a few blocks and prints no times; with the word `time` it
//! settles thousands for some minutes.
#![tactic(auto)]

ghost use Rattle.std.specs.Prelude.{IsTrue};
ghost use Rattle.astc_model.specs.Footprints.{is_footprint};

mod settled;

use astc_model::{Footprint, Preset};
use descent::{Search, SearchTables};
use settled::{PICTURES, settle_pass};
use std::alloc::Global;
use std::rt::Runtime;
use std::time::Instant;
use std::{env, io};

fn main(rt: HostRuntime) -> io::Result<()> {
    let mut timed = false;
    for word in env::args(&rt)? {
        timed = timed || word.as_str() == "time";
    }
    if timed {
        measure_footprints(&rt, rt.alloc())
    } else {
        measure_pictures::<4, 4>(&rt, rt.alloc(), Preset::Quick, 1024, false)
    }
}

// Settles blocks of each picture at four footprints under each preset that searches.
fn measure_footprints(rt: &impl Runtime, alloc: Global) -> io::Result<()> {
    measure_presets::<4, 4>(rt, alloc, 16)?;
    measure_presets::<6, 6>(rt, alloc, 16)?;
    measure_presets::<8, 8>(rt, alloc, 8)?;
    measure_presets::<12, 12>(rt, alloc, 4)
}

// Settles every n-th block under quick, a quarter of those under medium, and a quarter of these
// under thorough.
fn measure_presets<const W: usize, const H: usize>(
    rt: &impl Runtime,
    alloc: Global,
    every: u32,
) -> io::Result<()>
    requires { IsTrue (is_footprint W H) }
{
    let [fewer, fewest] = [every.wrapping_mul(4), every.wrapping_mul(16)];
    measure_pictures::<W, H>(rt, alloc, Preset::Quick, every, true)?;
    measure_pictures::<W, H>(rt, alloc, Preset::Medium, fewer, true)?;
    measure_pictures::<W, H>(rt, alloc, Preset::Thorough, fewest, true)
}

// Settles every n-th block of each picture.
fn measure_pictures<const W: usize, const H: usize>(
    rt: &impl Runtime,
    alloc: Global,
    preset: Preset,
    every: u32,
    timed: bool,
) -> io::Result<()>
    requires { IsTrue (is_footprint W H) }
{
    let tables = SearchTables::<W, H>::new(alloc, Footprint::new(), preset)?;
    let search = Search {
        preset,
        fits: false,
        tables: tables.view(),
    };
    for picture in &PICTURES {
        let start = Instant::now(rt)?;
        let settled = settle_pass(&search, *picture, every);
        let nanos = start.elapsed(rt)?.as_nanos();
        println!(rt;
            "{W}x{H} {preset:?} {picture:?}: {} blocks, {} texels a block, error {}",
            settled.blocks,
            settled.texels / settled.blocks.max(1),
            settled.error
        )?;
        if timed {
            eprintln!(rt;
                "{W}x{H} {preset:?} {picture:?}: {} microseconds a block",
                nanos / 1000 / u128::from(settled.blocks.max(1))
            )?;
        }
    }
    Ok(())
}
