// Words and single blocks, judged without a file.
ghost use Rattle.std.specs.Prelude.{IsTrue};
ghost use Rattle.astc_model.specs.Footprints.{is_footprint};

use crate::commands::words_of;
use crate::ends::told_end;
use astc_audit::audit_block;
use astc_model::{Flavour, FootprintName, Source, for_footprint};
use astc_run::{AuditJob, Job, MoreOutcome, Outcome, job_of};
use case_blocks::source_of;
use case_files::{bad_row, block_of_digits};
use encoder::{Encoder, Settings, Verdict, tables_for};
use std::alloc::{AllocError, Global};
use std::io;

/// The job of words, or their first fault with its text.
pub fn told_job(alloc: Global, text: &str) -> Result<String, AllocError> {
    let words = words_of(alloc, text)?;
    match job_of(&words) {
        Ok(job) => format!(in alloc; "{job:?}"),
        Err(fault) => format!(in alloc; "{fault:?}: {fault}"),
    }
}

/// The end if memory runs out.
pub fn told_memory(alloc: Global) -> Result<String, AllocError> {
    told_end(alloc, &MoreOutcome::Common(Outcome::Memory))
}

// The verdict by the tables of an encoder.
fn verdict_by_tables<const W: usize, const H: usize>(
    alloc: Global,
    job: &AuditJob,
    flavour: Flavour,
    bytes: &[u8; 16],
    source: &Source<W, H>,
) -> Result<Verdict, AllocError>
    requires { IsTrue (is_footprint W H) }
{
    let settings = Settings {
        preset: job.preset,
        flavour,
        weights: job.weights,
        fits: false,
    };
    let tables = tables_for::<W, H>(alloc, job.preset, &[])?;
    Ok(Encoder::new(settings, tables.view()).verdict(bytes, source))
}

// The verdict on a block against texels, which must be the same by the tables of an encoder.
fn verdict<const W: usize, const H: usize>(
    alloc: Global,
    job: &AuditJob,
    flavour: Flavour,
    bytes: &[u8; 16],
    texels: &[u8],
) -> Result<Option<Verdict>, AllocError>
    requires { IsTrue (is_footprint W H) }
{
    let source = source_of::<W, H>(texels);
    let verdict = audit_block(job.preset, flavour, job.weights, bytes, &source);
    let by_tables = verdict_by_tables(alloc, job, flavour, bytes, &source)?;
    Ok(if by_tables == verdict {
        Some(verdict)
    } else {
        None
    })
}

// A verdict as a text: 1 for legal, for no closer candidate and for least, the error, and whether
// the block is bad.
fn told(alloc: Global, verdict: &Verdict) -> Result<String, AllocError> {
    let legal = u8::from(verdict.legal);
    let candidates_met = u8::from(verdict.candidates_met);
    let least = u8::from(verdict.least);
    let error = verdict.error;
    let bad = if verdict.is_bad() { " bad" } else { "" };
    format!(in alloc; "{legal}{candidates_met}{least} {error}{bad}")
}

// The job of an audit's words: a preset, and weights.
fn audit_job(alloc: Global, text: &str) -> io::Result<AuditJob> {
    let words = words_of(alloc, format!(in alloc; "audit k p {text}")?.as_str())?;
    match job_of(&words) {
        Ok(Job::Audit(job)) => Ok(job),
        _ => Err(bad_row()),
    }
}

/// The verdict on a block: the footprint, the flavour, the block, the texels, a preset and weights.
pub fn told_verdict(alloc: Global, text: &str) -> io::Result<String> {
    let (name, rest) = text.split_once(' ').unwrap_or((text, ""));
    let (flavour, rest) = rest.split_once(' ').unwrap_or((rest, ""));
    let (digits, rest) = rest.split_once(' ').unwrap_or((rest, ""));
    let (texels, rest) = rest.split_once(' ').unwrap_or((rest, ""));
    let Some(name) = FootprintName::from_word(name) else {
        return Err(bad_row());
    };
    let flavour = if flavour == "srgb" {
        Flavour::Srgb
    } else {
        Flavour::Linear
    };
    let job = audit_job(alloc, rest)?;
    let (job, block, texels) = (&job, &block_of_digits(digits), texels.as_bytes());
    match for_footprint!(name, verdict(alloc, job, flavour, block, texels))? {
        Some(verdict) => Ok(told(alloc, &verdict)?),
        None => Ok(String::from_str(alloc, "another one by the tables of an encoder")?),
    }
}
