//! The commands of the program, by the words of a command line.
#![tactic(auto)]

mod more;
mod outcome;
mod running;

pub use astc_audit::audit_files;
pub use astc_words::{
    AuditJob, ExportJob, Job, Levels, MoreCommand, MoreJob, PackJob, PartJob, PartPlace, TrialJob,
    UsageFault, job_of, more_job_of,
};
pub use exchange::{export_file, import_file};
pub use more::run_more;
pub use outcome::{MoreOutcome, status_more};
pub use outcomes::{Outcome, status};
pub use packing::{pack, pack_levels, pack_source, trial};
pub use parting::{JoinFault, join_parts, pack_part};
pub use polishing::polish_file;
pub use running::run;
pub use unpacking::unpack_file;
