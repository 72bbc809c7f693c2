// The block modes that the blocks of a footprint can have.
ghost use Rattle.std.specs.Prelude.{◌<◌, ◌≤◌, IsTrue};
ghost use Rattle.astc_model.specs.Footprints.{is_footprint};
ghost use Rattle.astc_model.specs.Modes.{IsInModeRange};
ghost use Rattle.astc_model.specs.Levels.{count_of};
ghost use Rattle.astc_model.specs.Shapes.{weight_count};

use arrayvec::ArrayVec;
use astc_model::{Level, Mode};
use block_mode::{grid_fault, mode_of, plane_bits, weight_bits};
use ideal_weights::WeightGrid;
use quant_tables::nearest_weight;

// One number for each mode whose grid has at most 64 weights of 24 to 96 bits, by the longer side
// of the grid; modes of one grid are adjacent, those of one plane first.
static NUMBERS: [u16; 775] = [
    1311, 1805, 1821, 1806, 1822, 1807, 1823, 814, 830, 815, 831, 1326, 1342, 1327, 1343, 1837,
    1853, 1838, 1854, 1839, 1855, 910, 926, 911, 927, 1422, 1438, 1423, 1439, 1933, 1949, 1934,
    1950, 1935, 1951, 431, 447, 941, 957, 942, 958, 943, 959, 1469, 1454, 1470, 1455, 1471, 1965,
    1981, 1966, 1982, 1967, 1983, 351, 845, 861, 846, 862, 847, 863, 1373, 1358, 1374, 1359, 1375,
    1869, 1885, 1870, 1886, 1871, 1887, 462, 478, 463, 479, 973, 989, 974, 990, 975, 991, 1485,
    1501, 1486, 1502, 1487, 1503, 1997, 2013, 1998, 19, 513, 529, 514, 530, 515, 531, 1041, 1026,
    1042, 1027, 1043, 1537, 1553, 1538, 1554, 1539, 1555, 34, 50, 35, 51, 545, 561, 546, 562, 547,
    563, 1057, 1073, 1058, 1074, 1059, 1075, 1569, 1585, 1570, 81, 66, 82, 67, 83, 577, 593, 578,
    594, 579, 595, 1089, 1105, 1090, 1106, 1091, 1107, 382, 367, 383, 877, 893, 878, 894, 879, 895,
    1405, 1390, 1406, 1391, 1407, 1901, 1917, 1902, 1918, 1903, 509, 494, 510, 495, 511, 1005,
    1021, 1006, 1022, 1007, 1023, 1517, 1533, 1518, 1534, 1519, 1535, 113, 98, 114, 99, 115, 609,
    625, 610, 626, 611, 1121, 1137, 1122, 1138, 146, 131, 147, 641, 657, 642, 658, 643, 659, 1169,
    1154, 1170, 1155, 1171, 1665, 1681, 1666, 1682, 1667, 177, 162, 178, 163, 179, 673, 689, 674,
    690, 675, 691, 1185, 1201, 1186, 1202, 1187, 1203, 209, 194, 210, 195, 211, 705, 721, 706, 722,
    707, 1217, 1233, 1218, 1234, 225, 241, 226, 242, 227, 243, 737, 753, 1249, 1265, 14, 30, 15,
    31, 525, 541, 526, 542, 527, 543, 1037, 1053, 1038, 1054, 1039, 1055, 1549, 1565, 1550, 61, 46,
    62, 47, 63, 557, 573, 558, 574, 559, 575, 1069, 1085, 1070, 1086, 1071, 77, 93, 78, 94, 79, 95,
    589, 605, 590, 1101, 1117, 1102, 109, 125, 110, 126, 111, 127, 1133, 1149, 258, 274, 259, 275,
    769, 785, 770, 786, 771, 787, 1281, 1297, 1282, 1298, 1283, 1299, 1793, 1809, 1794, 305, 290,
    306, 291, 307, 801, 817, 802, 818, 803, 819, 1313, 1329, 1314, 1330, 1315, 321, 337, 322, 338,
    323, 339, 833, 849, 834, 1345, 1361, 1346, 353, 369, 354, 370, 355, 371, 1377, 1393, 260, 276,
    264, 280, 268, 142, 158, 143, 159, 653, 669, 654, 670, 655, 671, 1165, 1181, 1166, 1182, 1167,
    1183, 1677, 189, 174, 190, 175, 191, 685, 701, 686, 702, 1197, 1213, 1198, 205, 221, 206, 222,
    207, 223, 717, 1229, 1245, 237, 253, 238, 254, 239, 772, 788, 776, 386, 402, 387, 403, 897,
    913, 898, 914, 899, 915, 1409, 1425, 1410, 1426, 1411, 1427, 1921, 433, 418, 434, 419, 435,
    929, 945, 930, 946, 1441, 1457, 1442, 449, 465, 450, 466, 451, 467, 961, 1473, 1489, 481, 497,
    482, 498, 483, 292, 308, 296, 804, 820, 25, 10, 26, 11, 27, 521, 537, 522, 538, 523, 539, 1033,
    1049, 1034, 1050, 1035, 1051, 41, 57, 42, 58, 43, 59, 553, 569, 554, 1065, 1081, 1066, 73, 89,
    74, 90, 75, 91, 1097, 105, 121, 106, 122, 1284, 1300, 1288, 1316, 1332, 21, 6, 22, 7, 23, 517,
    533, 518, 534, 519, 535, 1029, 1045, 1030, 1046, 1031, 1047, 37, 53, 38, 54, 39, 55, 549, 565,
    550, 1061, 1077, 1062, 69, 85, 70, 86, 71, 87, 1093, 101, 117, 102, 118, 324, 340, 328, 836,
    852, 1348, 153, 138, 154, 139, 155, 649, 665, 650, 666, 651, 667, 1161, 1177, 1162, 1178, 1163,
    169, 185, 170, 186, 171, 187, 681, 1193, 1209, 201, 217, 202, 218, 203, 233, 249, 234, 1796,
    1812, 1828, 149, 134, 150, 135, 151, 645, 661, 646, 662, 647, 663, 1157, 1173, 1158, 1174,
    1159, 165, 181, 166, 182, 167, 183, 677, 1189, 1205, 197, 213, 198, 214, 199, 229, 245, 230,
    356, 372, 868, 281, 266, 282, 267, 283, 777, 793, 778, 794, 779, 1289, 1305, 1290, 1306, 297,
    313, 298, 314, 299, 315, 1321, 1337, 329, 345, 330, 346, 361, 377, 388, 404, 277, 262, 278,
    263, 279, 773, 789, 774, 790, 775, 1285, 1301, 1286, 1302, 293, 309, 294, 310, 295, 311, 1317,
    1333, 325, 341, 326, 342, 357, 373, 420, 436, 409, 394, 410, 395, 411, 905, 921, 906, 922,
    1417, 1433, 1418, 425, 441, 426, 442, 427, 457, 473, 458, 489, 505, 405, 390, 406, 391, 407,
    901, 917, 902, 918, 1413, 1429, 1414, 421, 437, 422, 438, 423, 453, 469, 454, 485, 501, 132,
    148, 136, 152, 140, 156, 644, 660, 648, 1156, 1172, 1160, 164, 180, 168, 184, 172, 196, 212,
    200, 228, 244, 4, 20, 8, 24, 12, 28, 516, 532, 520, 1028, 1044, 1032, 36, 52, 40, 56, 44, 68,
    84, 72, 100, 116,
];

/// A mode that the blocks of a footprint can have, with its number.
#[derive(Clone, Copy)]
pub struct Usable {
    pub number: u16,
    pub mode: Mode,
    /// How many bits the weights and the channel of a second plane take.
    pub taken: u8,
    /// Which of the grids it has, in the order of their first modes.
    pub grid: u8,
    ghost range: { IsInModeRange mode },
    ghost weights: { weight_count mode ≤ 64 },
}

impl Default for Usable {
    /// Mode 66: a grid of 4 by 4, one plane, level 4.
    fn default() -> Self {
        Usable {
            number: 66,
            mode: Mode {
                across: 4,
                down: 4,
                level: Level::Four,
                planes: 1,
            },
            taken: 32,
            grid: 0,
        }
    }
}

/// The modes of a footprint, those of one grid together.
pub type UsableModes = ArrayVec<Usable, 775>;

/// The modes that the blocks of a footprint can have.
pub fn modes_of<const W: usize, const H: usize>() -> UsableModes {
    let mut modes = ArrayVec::new();
    for number in NUMBERS.iter() {
        match mode_of(*number) {
            Some(mode) => {
                if is_longer_than(&mode, W.max(H)) {
                    return modes;
                }
                add_mode::<W, H>(&mut modes, *number, mode);
            }
            None => {}
        }
    }
    modes
}

// Whether a side of the grid is longer.
fn is_longer_than(mode: &Mode, side: usize) -> bool {
    usize::from(mode.across.max(mode.down)) > side
}

// Which grid a mode after others has: the last one's, or the next.
fn grid_after(modes: &UsableModes, mode: &Mode) -> u8 {
    match modes.as_slice().last() {
        Some(last) if last.mode.across == mode.across && last.mode.down == mode.down => last.grid,
        Some(last) => last.grid.wrapping_add(1),
        None => 0,
    }
}

// Adds a mode, if blocks of the footprint can have it.
fn add_mode<const W: usize, const H: usize>(modes: &mut UsableModes, number: u16, mode: Mode)
    requires { IsInModeRange mode }
{
    if grid_fault::<W, H>(&mode).is_none() {
        let taken = weight_bits(&mode) + plane_bits(&mode);
        let usable = Usable {
            number,
            mode,
            taken: taken.min(255) as u8,
            grid: grid_after(modes, &mode),
        };
        let _full = modes.try_push(usable);
    }
}

/// How many grids modes have.
pub fn grid_count(modes: &UsableModes) -> usize {
    match modes.as_slice().last() {
        Some(last) => usize::from(last.grid).wrapping_add(1),
        None => 0,
    }
}

/// Puts in the grids of modes, in order, as far as there are places.
pub fn fill_grids<const W: usize, const H: usize>(grids: &mut [WeightGrid], modes: &UsableModes) {
    let mut count = 0;
    for usable in modes.as_slice() {
        if usize::from(usable.grid) == count {
            if let Some(grid) = grids.get_mut(count) {
                *grid = WeightGrid::of::<W, H>(usable.mode.across, usable.mode.down);
            }
            count = count.wrapping_add(1);
        }
    }
}

/// The integer of a level up to 32 whose value is nearest to a weight.
pub fn weight_for(level: Level, weight: i32) -> u8
    requires { count_of level ≤ 32 }
    ensures { result < count_of level }
{
    nearest_weight(level, weight.clamp(0, 64) as u8)
}
