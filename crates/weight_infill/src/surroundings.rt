// A table of the four grid points around each texel.
ghost use Rattle.std.specs.Prelude.{◌≡◌, ◌*◌, ◌/◌, ◌%◌, ◌<◌, ◌≤◌, IsTrue};
ghost use Rattle.std.specs.List.{All, sum_by};
ghost use Rattle.astc_model.specs.Footprints.{is_footprint};
ghost use Rattle.astc_model.specs.Infill.{factors};
ghost use Rattle.weight_infill.specs.Surrounded.{AreAround};

use crate::factors;

/// The four grid points around each texel of a block of `W` by `H` texels, with their factors, for
/// one grid (Khronos Data Format Specification, ASTC, "Weight Infill").
#[derive(Drop)]
pub struct Surroundings<const W: usize, const H: usize> {
    /// The number of columns of the grid.
    pub columns: u8,
    /// The number of rows of the grid.
    pub rows: u8,
    /// Index and factor of each point, by place of the texel, in rows from the top. Entries from
    /// `W * H` on are not used.
    around: [[(u8, u8); 4]; 144],
    ghost are: { AreAround W H columns rows (W * H) around },
}

impl<const W: usize, const H: usize> Surroundings<W, H> {
    /// Computes the table for a grid of `n` columns and `m` rows.
    #[inline(never)]
    pub fn of(n: u8, m: u8) -> Surroundings<W, H>
        requires footprint { IsTrue (is_footprint W H) }
        requires some_columns { 2 ≤ n }
        requires columns { n ≤ W }
        requires some_rows { 2 ≤ m }
        requires rows { m ≤ H }
        ensures columns { result.columns ≡ n }
        ensures rows { result.rows ≡ m }
    {
        let mut around = [[(0u8, 0u8); 4]; 144];
        for p in 0..W * H {
            around[p] = factors::<W, H>(n, m, (p % W) as u8, (p / W) as u8);
        }
        Surroundings {
            columns: n,
            rows: m,
            around,
        }
    }

    /// Returns the index in the grid and the factor, 0 to 16, of each of the four points around the
    /// texel of place `p`.
    #[inline(always)]
    pub fn at(&self, p: usize) -> [(u8, u8); 4]
        requires { p < W * H }
        ensures points { result ≡ factors W H self.now.columns self.now.rows (p % W) (p / W) }
        ensures in_grid { All (λ point. point.0 < self.now.columns * self.now.rows) result }
        ensures small { All (λ point. point.1 ≤ 16) result }
        ensures total { sum_by (λ point. point.1) result ≡ 16 }
    {
        self.around[p]
    }
}
