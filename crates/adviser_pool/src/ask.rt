// The query of an adviser.
ghost use Rattle.std.specs.Prelude.{◌≡◌, ◌≤◌, length};
ghost use Rattle.astc_model.specs.FootprintNames.{sides_of};
ghost use Rattle.adviser_pool.specs.Asks.{ask_about, entries, inside_at, texel_at};

use astc_model::{ChannelWeights, Flavour, Footprint, FootprintName, Preset, Source};

/// The query of an adviser: the texels that a block is to show, and the measure of its error. Place
/// (x, y) of a footprint that is `w` texels wide is entry `y * w + x` of both lists; the entries
/// past the last place are false and zero.
#[derive(Clone, Copy, Debug, PartialEq, Eq)]
pub struct Ask {
    /// The footprint.
    pub name: FootprintName,
    /// The preset of the compressor, which sets how hard it searches.
    pub preset: Preset,
    /// How the colours are meant.
    pub flavour: Flavour,
    /// The weights of red, green, blue and alpha in the error: 0 to 15 each, not all 0.
    pub weights: [u8; 4],
    /// Which places are inside the image. The others do not count.
    pub inside: [bool; 144],
    /// The texel of each place: red, green, blue and alpha; zeros outside the image.
    pub texels: [[u8; 4]; 144],
}

// Which places are inside.
fn inside_of(places: &[Option<[u8; 4]>]) -> [bool; 144]
    requires { length places.now ≤ 144 }
    ensures { result ≡ entries (inside_at places.now) }
{
    let mut inside = [false; 144];
    for p in 0..places.len() {
        inside[p] = places[p].is_some();
    }
    inside
}

// The texels of the places, zeros outside.
fn texels_of(places: &[Option<[u8; 4]>]) -> [[u8; 4]; 144]
    requires { length places.now ≤ 144 }
    ensures { result ≡ entries (texel_at places.now) }
{
    let mut texels = [[0; 4]; 144];
    for p in 0..places.len() {
        texels[p] = places[p].unwrap_or([0; 4]);
    }
    texels
}

/// The ask about a source: its footprint, with this preset, flavour and weights.
pub fn ask_of<const W: usize, const H: usize>(
    preset: Preset,
    flavour: Flavour,
    weights: ChannelWeights,
    source: &Source<W, H>,
) -> Ask
    ensures ask { result ≡ ask_about W H preset flavour weights source.now }
    ensures sides { sides_of result.name ≡ (W, H) }
{
    let places = source.places();
    let footprint_name = Footprint::<W, H>::new().name();
    Ask {
        name: footprint_name,
        preset,
        flavour,
        weights: weights.of(),
        inside: inside_of(places),
        texels: texels_of(places),
    }
}
