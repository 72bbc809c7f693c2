// The patterns of the places of a block that are inside.
ghost use Rattle.std.specs.Prelude.{◌≡◌, ◌↔◌, ◌*◌, ◌<◌, ◌≤◌, IsTrue, length, take, is_some};
ghost use Rattle.astc_model.specs.Footprints.{is_footprint};
ghost use Rattle.listed_walk.specs.Patterns.{IsInside, is_of_first};

/// A pattern of the places of a block that are inside: those in the first columns and rows. A
/// picture's blocks have no other.
#[derive(Clone, Copy, PartialEq, Eq)]
pub struct InsidePattern {
    pub columns: u8,
    pub rows: u8,
}

impl InsidePattern {
    /// Whether these places are inside so.
    pub fn is_of<const W: usize, const H: usize>(self, places: &[Option<[u8; 4]>]) -> bool
        requires footprint { IsTrue (is_footprint W H) }
        requires places { length places.now ≡ W * H }
        ensures { IsTrue result ↔ IsInside W H self.columns self.rows places.now }
    {
        for p in 0..W * H {
            if places[p].is_some() != self.has::<W>(p) {
                return false;
            }
        }
        true
    }

    /// The places of a block that is inside so: the first `W` * `H` of these.
    pub fn places<const W: usize, const H: usize>(self) -> [Option<[u8; 4]>; 144]
        requires { IsTrue (is_footprint W H) }
        ensures { IsInside W H self.columns self.rows (take (W * H) result) }
    {
        let mut places = [None; 144];
        for p in 0..W * H {
            places[p] = self.place::<W>(p);
        }
        places
    }

    // A texel, if the place is inside.
    fn place<const W: usize>(self, p: usize) -> Option<[u8; 4]>
        requires { 0 < W }
        ensures { is_some result ≡ is_of_first W self.columns self.rows p }
    {
        if self.has::<W>(p) { Some([0; 4]) } else { None }
    }

    // Whether a place is inside.
    fn has<const W: usize>(self, p: usize) -> bool
        requires { 0 < W }
        ensures { result ≡ is_of_first W self.columns self.rows p }
    {
        p % W < usize::from(self.columns) && p / W < usize::from(self.rows)
    }
}

/// The patterns of the blocks of a picture of `width` columns and `height` rows; without columns or
/// rows if no block has the pattern.
pub fn patterns_of<const W: usize, const H: usize>(width: u32, height: u32) -> [InsidePattern; 4]
    requires { IsTrue (is_footprint W H) }
{
    let columns = inside_sides(width, W as u32);
    let rows = inside_sides(height, H as u32);
    [
        pattern_of(columns[0], rows[0]),
        pattern_of(columns[0], rows[1]),
        pattern_of(columns[1], rows[0]),
        pattern_of(columns[1], rows[1]),
    ]
}

fn pattern_of(columns: u8, rows: u8) -> InsidePattern {
    InsidePattern { columns, rows }
}

// The number of columns of blocks that are inside a picture of this number of columns, or of rows:
// first of a whole block, then of the last block if it is not whole; 0 if there is none.
fn inside_sides(picture: u32, block: u32) -> [u8; 2]
    requires some { 0 < block }
    requires few { block ≤ 12 }
{
    let whole = if picture >= block { block } else { 0 };
    [whole as u8, (picture % block) as u8]
}
