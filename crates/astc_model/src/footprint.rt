// A block footprint as a type.
ghost use Rattle.std.specs.Prelude.{◌≡◌, IsTrue};
ghost use Rattle.astc_model.specs.Footprints.{is_footprint};
ghost use Rattle.astc_model.specs.FootprintNames.{sides_of};

use crate::FootprintName;

/// A block footprint as a type: blocks of `W` by `H` texels. A value has no data; its existence is
/// the proof that `W` by `H` is one of the fourteen footprints of two dimensions.
#[derive(Clone, Copy, Debug)]
pub struct Footprint<const W: usize, const H: usize> {
    ghost listed: { IsTrue (is_footprint W H) },
}

impl<const W: usize, const H: usize> Footprint<W, H> {
    /// Returns the footprint of `W` by `H` texels. [`FootprintName::of`] tests at run time whether
    /// two sides are those of a footprint.
    pub fn new() -> Footprint<W, H>
        requires { IsTrue (is_footprint W H) }
    {
        Footprint {}
    }

    /// Returns the footprint as a value of the enum.
    pub fn name(&self) -> FootprintName
        ensures { sides_of result ≡ (W, H) }
    {
        FootprintName::of(W, H).unwrap()
    }
}
