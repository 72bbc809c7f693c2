// The source of a block: the texels that the block should show.
ghost use Rattle.std.specs.Prelude.{◌≡◌, ◌+◌, ◌*◌, ◌<◌, ◌≤◌, length, None, Some, List, Option, slice_set, slice_index_or, replicate, IsTrue};
ghost use Rattle.astc_model.specs.Footprints.{is_footprint};

use crate::Footprint;
use std::marker::Model;

/// The source of a block of `W` by `H` texels: the texels that the block should show. The places of
/// a source are the positions of the block, in rows from the top; each place has a texel or is
/// outside the image, and then does not count in the error. In contracts a source is the list of
/// its `W * H` places; place (x, y) is entry `y * W + x`.
#[derive(Drop)]
pub struct Source<const W: usize, const H: usize> {
    // The array has the size of the largest footprint, because generic code has no array of length
    // W * H. The entries from W * H on are never read.
    places: [Option<[u8; 4]>; 144],
}

impl<const W: usize, const H: usize> Model for Source<W, H> {
    ghost use Rattle.std.specs.Prelude.{ℕ, ◌*◌, IsTrue, List, Option, take};
    ghost use Rattle.astc_model.specs.Footprints.{is_footprint};

    ghost Value = { List (Option (List ℕ)) };

    ghost view = { λ s. take (W * H) s.places };

    ghost invariant = { λ s. IsTrue (is_footprint W H) };
}

impl<const W: usize, const H: usize> Source<W, H> {
    /// Returns a source whose places are all outside the image.
    pub fn new(_footprint: Footprint<W, H>) -> Source<W, H>
        ensures { result ≡ replicate (W * H) None }
    {
        Source {
            places: [None; 144],
        }
    }

    /// Sets the texel (red, green, blue, alpha) of the place in column `x` and row `y`.
    pub fn set(&mut self, x: u8, y: u8, texel: [u8; 4])
        requires column { x < W }
        requires row { y < H }
        ensures { self.new ≡ slice_set self.old (y * W + x) (Some texel) }
    {
        let places = &mut self.places;
        places[y as usize * W + x as usize] = Some(texel);
    }

    /// Returns the `W * H` places (16 to 144), in rows from the top.
    pub fn places(&self) -> &[Option<[u8; 4]>]
        ensures all { result.now ≡ self.now }
        ensures count { length result.now ≡ W * H }
        ensures few { length result.now ≤ 144 }
        ensures footprint { IsTrue (is_footprint W H) }
    {
        let places = &self.places;
        &places[..W * H]
    }

    /// Returns the texel of the place in column `x` and row `y`; None exactly if the place is
    /// outside the image.
    pub fn get(&self, x: u8, y: u8) -> Option<[u8; 4]>
        requires column { x < W }
        requires row { y < H }
        ensures { result ≡ slice_index_or self.now (y * W + x) None }
    {
        let places = &self.places;
        places[y as usize * W + x as usize]
    }
}
