// Images as a value.
ghost use Rattle.std.specs.Prelude.{◌≡◌, ◌+◌, ◌*◌, ◌<◌, ◌≤◌, Some, length};
ghost use Rattle.images.specs.Pictures.{IsValid, texels_of, bytes_of, texel_of, texel_at};

use std::marker::Model;

/// Images of one size, one after another. A contract sees their width, height and number, and the
/// list of their texels, red, green, blue and alpha: texel (x, y) of image i is entry `i * width *
/// height + y * width + x`. Each side is 1 to 8192, and there is an image at least.
#[derive(Drop)]
pub struct Images {
    width: u32,
    height: u32,
    count: u32,
    // Four bytes per texel.
    raster: Vec<u8>,
}

impl Model for Images {
    ghost use Rattle.std.specs.Prelude.{◌≡◌, ◌*◌, ◌≤◌, length};
    ghost use Rattle.images.specs.Pictures.{Pictures, texels_of};

    ghost Value = { Pictures };

    ghost view = { λ a. record {
      width = a.width;
      height = a.height;
      count = a.count;
      texels = texels_of a.raster.items;
    } };

    ghost invariant = { λ a. (1 ≤ a.width) × (a.width ≤ 8192) × (1 ≤ a.height) × (a.height ≤ 8192)
        × (1 ≤ a.count)
        × (length a.raster.items ≡ 4 * (a.width * a.height * a.count)) };
}

impl Images {
    /// Images of these sides and this number from their raster, which is not copied: red, green,
    /// blue and alpha of each texel, in rows from the top, the images one after another.
    pub fn from_raster(width: u32, height: u32, count: u32, raster: Vec<u8>) -> Images
        requires width_some { 1 ≤ width }
        requires width_most { width ≤ 8192 }
        requires height_some { 1 ≤ height }
        requires height_most { height ≤ 8192 }
        requires count_some { 1 ≤ count }
        requires full { length raster.items ≡ 4 * (width * height * count) }
        ensures images { result ≡ record {
          width = width;
          height = height;
          count = count;
          texels = texels_of raster.items;
        } }
        ensures valid { IsValid result }
    {
        Images {
            width,
            height,
            count,
            raster,
        }
    }

    /// The bytes of all texels, as [`from_raster`](Images::from_raster) takes them.
    pub fn raster(&self) -> &[u8]
        ensures bytes { result.now ≡ bytes_of self.now.texels }
        ensures texels { self.now.texels ≡ texels_of result.now }
        ensures full { length result.now ≡ 4 * (self.now.width * self.now.height * self.now.count) }
        ensures valid { IsValid self.now }
    {
        self.raster.as_slice()
    }

    /// The bytes of all texels, without a copy.
    pub fn into_raster(self) -> Vec<u8>
        ensures bytes { result.items ≡ bytes_of self.texels }
        ensures texels { self.texels ≡ texels_of result.items }
        ensures full { length result.items ≡ 4 * (self.width * self.height * self.count) }
        ensures valid { IsValid self }
    {
        self.raster
    }

    /// The width in texels, 1 to 8192.
    pub fn width(&self) -> u32
        ensures same { result ≡ self.now.width }
        ensures some { 1 ≤ result }
        ensures most { result ≤ 8192 }
    {
        self.width
    }

    /// The height in texels, 1 to 8192.
    pub fn height(&self) -> u32
        ensures same { result ≡ self.now.height }
        ensures some { 1 ≤ result }
        ensures most { result ≤ 8192 }
    {
        self.height
    }

    /// The number of images, at least 1.
    pub fn count(&self) -> u32
        ensures same { result ≡ self.now.count }
        ensures some { 1 ≤ result }
    {
        self.count
    }

    /// The texel of an image in column `x` and row `y`: red, green, blue and alpha.
    pub fn texel(&self, image: u32, x: u32, y: u32) -> [u8; 4]
        requires image { image < self.now.count }
        requires column { x < self.now.width }
        requires row { y < self.now.height }
        ensures inside { texel_at self.now image x y ≡ Some result }
        ensures texel { result ≡ texel_of self.now image x y }
    {
        let place = image as usize * (self.width as usize * self.height as usize)
            + y as usize * self.width as usize
            + x as usize;
        let at = 4 * place;
        let raster = self.raster.as_slice();
        [raster[at], raster[at + 1], raster[at + 2], raster[at + 3]]
    }
}
