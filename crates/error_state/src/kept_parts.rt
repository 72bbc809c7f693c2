// The data of the partitions of a block from one scan of their colour integers to the next.
ghost use Rattle.std.specs.Prelude.{◌≡◌, ℕ, ◌<◌, IfSome};
ghost use Rattle.error_tables.specs.Kept.{IsKept};
ghost use Rattle.colour_bounds.specs.PartScans.{IsPartScan};
ghost use Rattle.error_tables.specs.declared.tables.Tables.{Tables as AnyTables};
ghost use Rattle.error_state.specs.KeptParts.{IsKeptPart, AreKeptParts};

use colour_bounds::{PartitionScan, scan_of};
use error_tables::{PartitionFloor, Tables, reach_of_part};

/// The data of a partition, valid until its colours or the weights and errors of its places change.
#[derive(Clone, Copy)]
pub struct KeptPart {
    /// The colour values of the partition, followed by zeros.
    pub values: [u8; 8],
    pub floor: PartitionFloor,
    /// The least form that says that a change of the part is not better.
    pub most: u64,
}

/// The data of all partitions; None for those that a block does not have.
#[derive(Clone, Copy)]
pub struct KeptParts {
    pub first: Option<KeptPart>,
    pub second: Option<KeptPart>,
    pub third: Option<KeptPart>,
    pub fourth: Option<KeptPart>,
}

// The data of a partition, if the block has it.
fn kept_part<const W: usize, const H: usize>(tables: &Tables, part: u8) -> Option<KeptPart>
    requires { IsKept W H tables.now }
    ensures { IfSome result (IsKeptPart W H tables.now part) }
{
    if part >= tables.block.parts {
        return None;
    }
    let scan = scan_of::<W, H>(tables, part);
    Some(KeptPart {
        values: scan.values,
        floor: scan.floor,
        most: scan.most,
    })
}

/// Nothing.
pub fn no_parts() -> KeptParts
    ensures { (w h : ℕ) (tables : AnyTables) → AreKeptParts w h tables result }
{
    KeptParts {
        first: None,
        second: None,
        third: None,
        fourth: None,
    }
}

/// The data of the partitions.
pub fn kept_parts<const W: usize, const H: usize>(tables: &Tables) -> KeptParts
    requires { IsKept W H tables.now }
    ensures { AreKeptParts W H tables.now result }
{
    KeptParts {
        first: kept_part::<W, H>(tables, 0),
        second: kept_part::<W, H>(tables, 1),
        third: kept_part::<W, H>(tables, 2),
        fourth: kept_part::<W, H>(tables, 3),
    }
}

// The data of one of the partitions.
fn part_of(parts: &KeptParts, part: u8) -> Option<KeptPart>
    requires { part < 4 }
    ensures { (w h : ℕ) (tables : AnyTables) → AreKeptParts w h tables parts.now
        → IfSome result (IsKeptPart w h tables part) }
{
    match part {
        0 => parts.first,
        1 => parts.second,
        2 => parts.third,
        _ => parts.fourth,
    }
}

// The start of a scan, from the data of its partition.
fn scan_from<'a, const W: usize, const H: usize>(
    tables: &'a Tables<'a>,
    part: u8,
    kept: &KeptPart,
) -> PartitionScan<'a>
    requires tables { IsKept W H tables.now }
    requires kept { IsKeptPart W H tables.now part kept.now }
    requires own { part < tables.now.block.parts }
    ensures tables { result.tables.now ≡ tables.now }
    ensures part { result.part ≡ part }
    ensures scan { IsPartScan W H result }
{
    PartitionScan {
        tables,
        part,
        reach: reach_of_part::<W, H>(tables, part),
        cem: tables.block.cems[usize::from(part)],
        values: kept.values,
        floor: kept.floor,
        most: kept.most,
    }
}

/// The start of a scan of a colour integer of a partition.
pub fn part_scan<'a, const W: usize, const H: usize>(
    tables: &'a Tables<'a>,
    parts: &KeptParts,
    part: u8,
) -> PartitionScan<'a>
    requires tables { IsKept W H tables.now }
    requires parts { AreKeptParts W H tables.now parts.now }
    requires own { part < tables.now.block.parts }
    ensures tables { result.tables.now ≡ tables.now }
    ensures part { result.part ≡ part }
    ensures scan { IsPartScan W H result }
{
    match part_of(parts, part) {
        Some(kept) => scan_from::<W, H>(tables, part, &kept),
        None => scan_of::<W, H>(tables, part),
    }
}
