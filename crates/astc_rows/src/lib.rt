//! Rows of blocks over slices, for callers outside Rattle: encoded, polished, judged and shown. The
//! arguments of a call are plain numbers and slices, which the call checks. No call keeps state.
#![tactic(auto)]

ghost use Rattle.std.specs.Prelude.{◌≡◌};

mod arguments;
mod bands;
mod judging;
mod no_alloc;
mod settling;
mod showing;
mod sources;

pub use arguments::{Argument, CallStop, RowOptions, Rows};
pub use bands::{CheckedCall, CheckedOptions, CheckedRows, format_of};
pub use encoder::Verdict;
pub use judging::{RowFindings, audit_rows};
pub use no_alloc::{encode_rows_no_alloc, judge_rows_no_alloc, polish_rows_no_alloc};
pub use settling::{encode_rows, polish_rows};
pub use showing::show_rows;

/// The version of these functions: 65,536 times its first number, 256 times its second, and its
/// third.
pub fn version() -> u32
    ensures { result ≡ 512 }
{
    512
}
