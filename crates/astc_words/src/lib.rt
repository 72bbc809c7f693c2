//! The words of a command line: their job, or their first fault.
#![tactic(auto)]

mod command;
mod fault;
mod job;
mod more;
mod more_jobs;
mod numbers;
mod options;
mod reading;
mod within;

pub use command::Command;
pub use fault::UsageFault;
pub use job::{AuditJob, ExportJob, Job, Levels, PackJob, TrialJob};
pub use more::{MoreCommand, more_job_of};
pub use more_jobs::{MoreJob, PartJob, PartPlace};
pub use reading::job_of;
pub use within::Within;
