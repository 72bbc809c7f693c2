// The report of an import or an export.
ghost use Rattle.std.specs.Prelude.{◌≡◌, ◌≤◌, [], ◌∷◌, IfOk, string_bytes};
ghost use Rattle.outcomes.specs.Causes.{Tells};
ghost use Rattle.exchange.specs.Reports.{blocks_line};

use std::alloc::{AllocError, Global};
use tex_shelf::{Report, ShelfStop};

fn blocks_line(alloc: Global, blocks: u64) -> Result<String, AllocError>
    ensures { IfOk result (λ line. string_bytes line ≡ blocks_line blocks) }
{
    format!(in alloc; "blocks {blocks}\n")
}

/// Reports the number of blocks that were copied.
///
/// # Errors
///
/// `Failed` if the report failed, and `NoMemory`; nothing is then written.
pub(crate) fn report_blocks<R: Report>(
    alloc: Global,
    report: &mut R,
    blocks: u64,
) -> Result<(), ShelfStop>
    ensures tells { Tells (R.written report.old) (R.written report.new) (blocks_line blocks ∷ [])
        (R.faults report.old) (R.faults report.new) result }
    ensures never_falls { R.faults report.old ≤ R.faults report.new }
{
    let Ok(line) = blocks_line(alloc, blocks) else {
        return Err(ShelfStop::NoMemory);
    };
    report.put(line.as_str())
}
