// The fields of a block.
ghost use Rattle.std.specs.Prelude.{◌≡◌, ◌≤◌, ◌<◌, length, slice_index, IsTrue, IfOk};
ghost use Rattle.astc_model.specs.Footprints.{is_footprint};
ghost use Rattle.astc_model.specs.Blocks.{Legal};
ghost use Rattle.astc_model.specs.FootprintNames.{sides_of};
ghost use Rattle.astc_model.specs.Reading.{read};
ghost use Rattle.astc_rows.specs.Formats.{format_of};
ghost use Rattle.astc_model.specs.declared.block.Block.TheVariants.{Coded as CodedBlock};
ghost use Rattle.page.specs.Blocks.{Tells, TellsCoded, IsToldOf, fault_number, nothing_told, told_of_constant};

use astc_model::{Block, BlockFault, Coded, Constant, FootprintName, for_footprint};
use astc_rows::format_of;
use block_reader::read_block;
use texel_error::{part_ends, parts_of, shape_of};

/// The report on a block. Values that a block does not have are 0: after a fault only `fault` is
/// set, a void-extent block has only a colour and an extent, and other blocks have neither.
#[repr(C)]
#[derive(Clone, Copy, Debug, PartialEq, Eq)]
pub struct BlockTold {
    /// 0, or the number of the first fault, from 1 on in the order in which they are tested.
    pub fault: u32,
    /// 1 for a block with colours and weights, 0 for a void extent.
    pub is_coded: u32,
    /// The block mode, below 2048.
    pub mode: u32,
    /// The columns of the weight grid.
    pub across: u32,
    /// The number of rows of the grid.
    pub down: u32,
    /// The planes of weights, 1 or 2.
    pub planes: u32,
    /// The number of values of a weight.
    pub weight_values: u32,
    /// The number of values of a colour integer.
    pub colour_values: u32,
    /// The number of partitions, 1 to 4.
    pub parts: u32,
    pub seed: u32,
    /// How the colour endpoint modes are written.
    pub selector: u32,
    /// 1 to 4 for the component of the second plane.
    pub plane: u32,
    /// The number of colour integers.
    pub colour_count: u32,
    /// The number of weights.
    pub weight_count: u32,
    /// The colour of a void extent, 16 bits per channel.
    pub rgba: [u16; 4],
    /// The extent of a void-extent block.
    pub extent: [u16; 4],
    /// The colour endpoint mode of each partition.
    pub cems: [u8; 4],
    pub colours: [u8; 18],
    pub weights: [u8; 64],
    /// The two endpoints of each partition: red, green, blue and alpha of each.
    pub ends: [[u8; 8]; 4],
    /// The partition of each texel, in rows from the top.
    pub part_of: [u8; 144],
}

impl BlockTold {
    // The report that has only a fault, or nothing for 0.
    #[tactic(auto, unfolding(crate::specs::Blocks::nothing_told))]
    fn of_fault(fault: u32) -> BlockTold
        ensures { result ≡ nothing_told fault }
    {
        BlockTold {
            fault,
            is_coded: 0,
            mode: 0,
            across: 0,
            down: 0,
            planes: 0,
            weight_values: 0,
            colour_values: 0,
            parts: 0,
            seed: 0,
            selector: 0,
            plane: 0,
            colour_count: 0,
            weight_count: 0,
            rgba: [0; 4],
            extent: [0; 4],
            cems: [0; 4],
            colours: [0; 18],
            weights: [0; 64],
            ends: [[0; 8]; 4],
            part_of: [0; 144],
        }
    }
}

// The number of a fault, by its place in the order of tests.
fn fault_number(fault: BlockFault) -> u32
    ensures { result ≡ fault_number fault }
{
    match fault {
        BlockFault::ReservedMode => 1,
        BlockFault::HdrConstant => 2,
        BlockFault::ExtentReserved => 3,
        BlockFault::ExtentOrder => 4,
        BlockFault::GridTooLarge => 5,
        BlockFault::TooManyWeights => 6,
        BlockFault::WeightBits => 7,
        BlockFault::DualPlaneFour => 8,
        BlockFault::TooManyColours => 9,
        BlockFault::HdrEndpoint => 10,
        BlockFault::ColourBits => 11,
    }
}

// Copies as many bytes as both have.
fn copy_bytes(into: &mut [u8], from: &[u8])
    ensures { length into.new ≡ length into.old }
{
    let count = into.len().min(from.len());
    for k in 0..count {
        into[k] = from[k];
    }
}

// One row of eight for each pair of ends.
fn rows_of_ends(ends: &[([u8; 4], [u8; 4]); 4]) -> [[u8; 8]; 4] {
    let mut all = [[0u8; 8]; 4];
    for part in 0..4 {
        let (first, second) = ends[part];
        all[part] = [
            first[0], first[1], first[2], first[3], second[0], second[1], second[2], second[3],
        ];
    }
    all
}

// The report on a void-extent block.
fn told_constant(constant: &Constant) -> BlockTold
    ensures { result ≡ told_of_constant constant.now }
{
    let rgba = constant.rgba;
    let extent = constant.extent;
    let mut told = BlockTold::of_fault(0);
    told.rgba = rgba;
    told.extent = extent;
    told
}

// The report on a block with colours and weights.
fn told_coded<const W: usize, const H: usize>(coded: &Coded) -> BlockTold
    requires footprint { IsTrue (is_footprint W H) }
    requires legal { Legal W H (CodedBlock coded.now) }
    ensures { TellsCoded coded.now result }
{
    let (mode, level) = shape_of::<W, H>(coded);
    let mut told = BlockTold::of_fault(0);
    told.is_coded = 1;
    told.mode = u32::from(coded.mode);
    told.across = u32::from(mode.across);
    told.down = u32::from(mode.down);
    told.planes = u32::from(mode.planes);
    told.weight_values = u32::from(mode.level.count());
    told.colour_values = u32::from(level.count());
    told.parts = u32::from(coded.parts);
    told.seed = u32::from(coded.seed);
    told.selector = u32::from(coded.selector);
    told.plane = u32::from(coded.plane);
    told.colour_count = coded.colours.len() as u32;
    told.weight_count = coded.weights.len() as u32;
    told.cems = coded.cems;
    copy_bytes(&mut told.colours, coded.colours.as_slice());
    copy_bytes(&mut told.weights, coded.weights.as_slice());
    told.ends = rows_of_ends(&part_ends::<W, H>(coded, mode, level));
    told.part_of = parts_of::<W, H>(coded.parts, coded.seed);
    told
}

// The report on 16 bytes.
fn told_bytes<const W: usize, const H: usize>(bytes: &[u8; 16]) -> BlockTold
    requires { IsTrue (is_footprint W H) }
    ensures { Tells (read W H bytes.now) result }
{
    match read_block::<W, H>(bytes) {
        Ok(Block::Constant(constant)) => told_constant(&constant),
        Ok(Block::Coded(coded)) => told_coded::<W, H>(&coded),
        Err(fault) => BlockTold::of_fault(fault_number(fault)),
    }
}

// The report on 16 bytes as a block of a footprint.
fn told_of(name: FootprintName, bytes: &[u8; 16]) -> BlockTold
    ensures { Tells (read (sides_of name).0 (sides_of name).1 bytes.now) result }
{
    for_footprint!(name, told_bytes(bytes))
}

/// Writes to `told` the report on the first block, of the format with this number. Returns 0; 1 for
/// an unknown format, and 2 without a block: nothing is then written.
#[unsafe(no_mangle)]
pub extern "C" fn page_block(format: u32, blocks: &[[u8; 16]], told: &mut BlockTold) -> u32
    ensures { IsToldOf (format_of format) blocks.now told.old told.new result }
{
    let Some((name, _)) = format_of(format) else {
        return 1;
    };
    match blocks {
        [] => 2,
        [bytes, ..] => {
            *told = told_of(name, bytes);
            0
        }
    }
}
