// Weights of texels by those of a grid.
ghost use Rattle.std.specs.Prelude.{IsTrue};
ghost use Rattle.astc_model.specs.Footprints.{is_footprint};

use astc_model::{FootprintName, for_footprint};
use case_files::{bad_row, number, small, small_numbers};
use std::alloc::Global;
use std::io;
use weight_infill::{Surroundings, factors, infill, touched};

// A grid on a footprint, and what else the words say: `FOOTPRINT COLUMNSxROWS ..`.
fn grid_of(words: &str) -> io::Result<(FootprintName, u8, u8)> {
    let (name, rest) = words.split_once(' ').unwrap_or((words, ""));
    let (grid, _) = rest.split_once(' ').unwrap_or((rest, ""));
    let (columns, rows) = grid.split_once('x').unwrap_or((grid, ""));
    match FootprintName::from_word(name) {
        Some(name) => Ok((name, small(number(columns)?)?, small(number(rows)?)?)),
        None => Err(bad_row()),
    }
}

// The words after the grid.
fn behind_grid(words: &str) -> &str {
    let (_, rest) = words.split_once(' ').unwrap_or((words, ""));
    let (_, rest) = rest.split_once(' ').unwrap_or((rest, ""));
    rest
}

// The weights of all texels, by rows.
fn told_weights<const W: usize, const H: usize>(
    alloc: Global,
    columns: u8,
    rows: u8,
    points: &[u8],
) -> io::Result<String>
    requires { IsTrue (is_footprint W H) }
{
    if columns < 2 || columns as usize > W || rows < 2 || rows as usize > H {
        return Err(bad_row());
    }
    if points.len() != columns as usize * rows as usize
        || !points.iter().all(|point| *point <= 64)
    {
        return Err(bad_row());
    }
    let mut text = String::new(alloc);
    for p in 0..W * H {
        let (x, y) = (p % W, p / W);
        if y < H {
            let gap = if p == 0 { "" } else { " " };
            let weight = infill::<W, H>(columns, rows, x as u8, y as u8, points);
            text.push_str(format!(in alloc; "{gap}{weight}")?.as_str())?;
        }
    }
    Ok(text)
}

/// The weights of a grid's texels: `FOOTPRINT COLUMNSxROWS POINTS`.
pub fn weights_answer(alloc: Global, words: &str) -> io::Result<String> {
    let (name, columns, rows) = grid_of(words)?;
    let points = small_numbers(alloc, behind_grid(words))?;
    let points = points.as_slice();
    for_footprint!(name, told_weights(alloc, columns, rows, points))
}

// The four points around a texel, which have to be those that are kept.
fn told_around<const W: usize, const H: usize>(
    alloc: Global,
    columns: u8,
    rows: u8,
    x: u8,
    y: u8,
) -> io::Result<String>
    requires { IsTrue (is_footprint W H) }
{
    if columns < 2 || columns as usize > W || rows < 2 || rows as usize > H {
        return Err(bad_row());
    }
    let place = usize::from(y).wrapping_mul(W).wrapping_add(usize::from(x));
    if x as usize >= W || y as usize >= H || place >= W.wrapping_mul(H) {
        return Err(bad_row());
    }
    let points = factors::<W, H>(columns, rows, x, y);
    let kept = Surroundings::<W, H>::of(columns, rows).at(place);
    let also = if kept == points {
        ""
    } else {
        ", others are kept"
    };
    Ok(format!(in alloc; "{points:?}{also}")?)
}

/// The four points around a texel and their factors: `FOOTPRINT COLUMNSxROWS X Y`.
pub fn around_answer(alloc: Global, words: &str) -> io::Result<String> {
    let (name, columns, rows) = grid_of(words)?;
    let (x, y) = behind_grid(words).split_once(' ').unwrap_or(("", ""));
    let (x, y) = (small(number(x)?)?, small(number(y)?)?);
    for_footprint!(name, told_around(alloc, columns, rows, x, y))
}

// The texels that a point touches.
fn told_touched<const W: usize, const H: usize>(
    alloc: Global,
    columns: u8,
    rows: u8,
    point: u8,
) -> io::Result<String>
    requires { IsTrue (is_footprint W H) }
{
    if columns < 2 || columns as usize > W || rows < 2 || rows as usize > H {
        return Err(bad_row());
    }
    let found = touched::<W, H>(columns, rows, point);
    Ok(format!(in alloc; "{:?}", found.as_slice())?)
}

/// The texels that a point of a grid touches: `FOOTPRINT COLUMNSxROWS POINT`.
pub fn touched_answer(alloc: Global, words: &str) -> io::Result<String> {
    let (name, columns, rows) = grid_of(words)?;
    let point = small(number(behind_grid(words))?)?;
    for_footprint!(name, told_touched(alloc, columns, rows, point))
}
