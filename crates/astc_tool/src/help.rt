pub const VERSION: &str = "astc_tool 0.2.0\n";

pub const USAGE: &str = "\
usage: astc_tool COMMAND [ARGUMENTS]

  pack IN OUT FOOTPRINT PRESET [OPTIONS]
      pack the images of a PAM file into a KTX file of ASTC blocks
  packktx IN OUT FOOTPRINT PRESET [OPTIONS]
      pack each mip level of an uncompressed KTX 1 file, RGB or RGBA with 8 bits
      per channel, into a KTX file of ASTC blocks
  unpack IN OUT
      decode a KTX file of ASTC blocks to PAM images
  audit FILE IMAGES PRESET [weights=R,G,B,A]
      check each block of a KTX file against the images that it was made from:
      can it be decoded, and is a block of the preset's list, or a change to one
      of its values, closer to the source
  polish IMAGES FILE OUT PRESET [weights=R,G,B,A]
      improve each block of a KTX file from any encoder for the images that it
      was made from, or leave the block unchanged
  part IN OUT PLACE COUNT FOOTPRINT PRESET [OPTIONS]
      make part PLACE, counted from 0, of the COUNT parts, 1 to 65536, of a
      pack: parts can be made side by side, and on several machines
  join OUT PART...
      join all parts, in any order, into the KTX file of the pack
  import IN OUT [srgb]
      convert a plain .astc file to a KTX file
  export IN OUT LEVEL ELEMENT FACE
      convert one image of a KTX file to a plain .astc file: LEVEL 0 to 13,
      ELEMENT 0 to 2047, FACE 0 to 5
  trial NUMBER WIDTH HEIGHT FOOTPRINT PRESET [fitted]
      generate a picture from the seed NUMBER, 0 to 4294967295, with sides of 1
      to 1024, pack it in memory, and print its errors and the length of its KTX
      file

FOOTPRINT  4x4 5x4 5x5 6x5 6x6 8x5 8x6 8x8 10x5 10x6 10x8 10x10 12x10 12x12
PRESET     how hard to search: flat (one colour per block), quick, medium,
           thorough; pairs (like quick, and changes both endpoints of a channel)

Options of pack, in any order, at most once each (packktx takes srgb, weights,
fitted and advised; audit and polish take weights; part takes all but advised;
import takes srgb; trial takes fitted):
  levels=L           write L mip levels, 1 to 14 (default: 1), or all if there
                     are fewer; levels=full writes all
  elements=K         an array of K elements, 1 to 2048, one image each (default:
                     no array)
  cube               six square images per element: +X -X +Y -Y +Z -Z
  srgb               the sRGB flavour of the format (default: linear)
  weights=R,G,B,A    the weight of the error in each channel, 0 to 15, not all 0
                     (default: 1,1,1,1)
  fitted             also try a block computed from the texels, which is often
                     closer: recommended
  advised            fitted, and also try a copy of the block before; cannot be
                     split into parts

Examples:
  astc_tool pack brick.pam brick.ktx 6x6 quick fitted levels=full srgb
  astc_tool pack normals.pam normals.ktx 5x5 medium weights=1,0,0,1
  astc_tool pack sky.pam sky.ktx 8x8 quick fitted cube srgb
  astc_tool packktx chain.ktx brick.ktx 6x6 quick fitted srgb
  astc_tool unpack brick.ktx brick_again.pam
  astc_tool audit brick.ktx brick.pam quick
  astc_tool trial 7 64 64 6x6 quick
  astc_tool import brick.astc brick.ktx srgb
  astc_tool export sky.ktx down.astc 0 0 3
  astc_tool part brick.pam brick.1 1 4 6x6 quick fitted levels=full
  astc_tool join brick.ktx brick.0 brick.1 brick.2 brick.3
  astc_tool polish brick.pam other.ktx brick.ktx thorough

IN and OUT may be the same file; if a write then fails, the input is lost.
Reports are printed on standard output, errors on standard error.
Status: 0 success, 1 an audit found blocks that could be improved, 2 invalid
command line, 3 invalid PAM, 4 invalid KTX, 5 a read failed, 6 a write failed,
7 the report failed, 8 out of memory, 9 invalid .astc, 10 the texture lacks that
image, 11 invalid uncompressed KTX; for join 12 not a part, 13 truncated part,
14 trailing bytes, 15 a part of another job, 16 duplicate part, 17 missing part.

Before a command: --progress shows progress on standard error (not for audit
and trial, which write no file, and not for part); --explain prints in a pipe or
a log, too, what standard error shows at a terminal: lines that explain an
error, and after pack, packktx and polish the PSNR and the bits per texel.
Also: --help, --version
";
