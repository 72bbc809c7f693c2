// The job of the words of a command line.
ghost use Rattle.std.specs.Prelude.{◌≡◌, ◌≤◌, ◌<◌, ◌^◌, length, [], Some, IfOk, slice_index_or};
ghost use Rattle.astc_words.specs.Commands.{texts, command_of};
ghost use Rattle.astc_words.specs.CommandsOfJobs.{command_by};
ghost use Rattle.astc_words.specs.Jobs.{missing, pack_with, packing, pack_job, unpack_job, auditing, audit_job, trying, is_fitted, trial_job, flavour_of, importing, import_job, exporting, export_job, job_in, job_under, job_of};

use crate::numbers::{footprint_at, number_at, preset_at};
use crate::options::{OptionsSoFar, Taker, no_options, options_from};
use crate::{AuditJob, Command, ExportJob, Job, Levels, PackJob, TrialJob, UsageFault, Within};
use astc_model::{ChannelWeights, Flavour, FootprintName, Preset};

/// The fault of words that end before a required word.
pub(crate) fn missing(words: &[String]) -> UsageFault
    ensures { result ≡ UsageFault.MissingWord (length words.now) }
{
    UsageFault::MissingWord(words.len() as u64)
}

pub(crate) fn pack_with(name: FootprintName, preset: Preset, options: OptionsSoFar) -> PackJob
    ensures exact { result ≡ pack_with name preset options }
{
    PackJob {
        name,
        preset,
        elements: options.elements.unwrap_or(Within::known(0)),
        cube: options.cube,
        levels: options.levels.unwrap_or(Levels::Number(Within::known(1))),
        advised: options.advised,
        fitted: options.fitted,
        srgb: options.srgb,
        weights: options.weights.unwrap_or(ChannelWeights::even()),
    }
}

fn packing(
    taker: Taker,
    footprint: &str,
    preset: &str,
    options: &[String],
) -> Result<PackJob, UsageFault>
    requires { length options.now < 2 ^ 63 }
    ensures exact { result ≡ packing taker footprint.now preset.now (texts options.now) }
{
    let name = footprint_at(3, footprint)?;
    let preset = preset_at(4, preset)?;
    match options_from(taker, 5, no_options(), options) {
        Ok(options) => Ok(pack_with(name, preset, options)),
        Err(fault) => Err(fault),
    }
}

/// `pack IN OUT FOOTPRINT PRESET`, `packktx IN OUT FOOTPRINT PRESET`, then options.
fn pack_job(taker: Taker, words: &[String]) -> Result<PackJob, UsageFault>
    ensures exact { result ≡ pack_job taker (texts words.now) }
    ensures named { IfOk result (λ _. 3 ≤ length words.now) }
{
    match words {
        [_, _, _, footprint, preset, options @ ..] => {
            packing(taker, footprint.as_str(), preset.as_str(), options)
        }
        _ => Err(missing(words)),
    }
}

/// `unpack IN OUT`.
fn unpack_job(words: &[String]) -> Result<Job, UsageFault>
    ensures exact { result ≡ unpack_job (texts words.now) }
    ensures named { IfOk result (λ _. 3 ≤ length words.now) }
    ensures command { IfOk result (λ job. command_by job ≡ Command.Unpack) }
{
    match words {
        [_, _, _] => Ok(Job::Unpack),
        [_, _, _, _, ..] => Err(UsageFault::ExtraWord(3)),
        _ => Err(missing(words)),
    }
}

fn auditing(preset: &str, options: &[String]) -> Result<Job, UsageFault>
    requires { length options.now < 2 ^ 63 }
    ensures exact { result ≡ auditing preset.now (texts options.now) }
    ensures command { IfOk result (λ job. command_by job ≡ Command.Audit) }
{
    let preset = preset_at(3, preset)?;
    match options_from(Taker::Audit, 4, no_options(), options) {
        Ok(options) => Ok(Job::Audit(AuditJob {
            preset,
            weights: options.weights.unwrap_or(ChannelWeights::even()),
        })),
        Err(fault) => Err(fault),
    }
}

/// `audit KTX PAM PRESET`, then options.
fn audit_job(words: &[String]) -> Result<Job, UsageFault>
    ensures exact { result ≡ audit_job (texts words.now) }
    ensures named { IfOk result (λ _. 3 ≤ length words.now) }
    ensures command { IfOk result (λ job. command_by job ≡ Command.Audit) }
{
    match words {
        [_, _, _, preset, options @ ..] => auditing(preset.as_str(), options),
        _ => Err(missing(words)),
    }
}

fn trying(
    number: &str,
    width: &str,
    height: &str,
    footprint: &str,
    preset: &str,
    fitted: bool,
) -> Result<Job, UsageFault>
    ensures exact { result
        ≡ trying number.now width.now height.now footprint.now preset.now fitted }
    ensures command { IfOk result (λ job. command_by job ≡ Command.Trial) }
{
    let number = number_at::<0, 4_294_967_295>(1, number)?.get();
    let width = number_at(2, width)?;
    let height = number_at(3, height)?;
    let name = footprint_at(4, footprint)?;
    let preset = preset_at(5, preset)?;
    Ok(Job::Trial(TrialJob {
        number,
        width,
        height,
        name,
        preset,
        fitted,
    }))
}

/// Whether `fitted` follows the preset of a trial, as word 6. Any other word there is one too many.
fn is_fitted(options: &[String]) -> Result<bool, UsageFault>
    ensures { result ≡ is_fitted (texts options.now) }
{
    match options {
        [] => Ok(false),
        [word, rest @ ..] => match (word.as_str() == "fitted", rest) {
            (true, []) => Ok(true),
            (true, _) => Err(UsageFault::ExtraWord(7)),
            (false, _) => Err(UsageFault::ExtraWord(6)),
        },
    }
}

/// `trial NUMBER W H FOOTPRINT PRESET`, then `fitted` or nothing.
fn trial_job(words: &[String]) -> Result<Job, UsageFault>
    ensures exact { result ≡ trial_job (texts words.now) }
    ensures named { IfOk result (λ _. 3 ≤ length words.now) }
    ensures command { IfOk result (λ job. command_by job ≡ Command.Trial) }
{
    match words {
        [_, number, width, height, footprint, preset, options @ ..] => {
            let fitted = is_fitted(options)?;
            trying(
                number.as_str(),
                width.as_str(),
                height.as_str(),
                footprint.as_str(),
                preset.as_str(),
                fitted,
            )
        }
        _ => Err(missing(words)),
    }
}

fn flavour_of(srgb: bool) -> Flavour
    ensures { result ≡ flavour_of srgb }
{
    if srgb { Flavour::Srgb } else { Flavour::Linear }
}

fn importing(options: &[String]) -> Result<Job, UsageFault>
    requires { length options.now < 2 ^ 63 }
    ensures exact { result ≡ importing (texts options.now) }
    ensures command { IfOk result (λ job. command_by job ≡ Command.Import) }
{
    match options_from(Taker::Import, 3, no_options(), options) {
        Ok(options) => Ok(Job::Import(flavour_of(options.srgb))),
        Err(fault) => Err(fault),
    }
}

/// `import IN OUT`, then options.
fn import_job(words: &[String]) -> Result<Job, UsageFault>
    ensures exact { result ≡ import_job (texts words.now) }
    ensures named { IfOk result (λ _. 3 ≤ length words.now) }
    ensures command { IfOk result (λ job. command_by job ≡ Command.Import) }
{
    match words {
        [_, _, _, options @ ..] => importing(options),
        _ => Err(missing(words)),
    }
}

fn exporting(level: &str, element: &str, face: &str) -> Result<Job, UsageFault>
    ensures exact { result ≡ exporting level.now element.now face.now }
    ensures command { IfOk result (λ job. command_by job ≡ Command.Export) }
{
    let level = number_at::<0, 13>(3, level)?.get();
    let element = number_at::<0, 2047>(4, element)?.get();
    let face = number_at::<0, 5>(5, face)?.get();
    Ok(Job::Export(ExportJob {
        level,
        element,
        face,
    }))
}

/// `export IN OUT LEVEL ELEMENT FACE`.
fn export_job(words: &[String]) -> Result<Job, UsageFault>
    ensures exact { result ≡ export_job (texts words.now) }
    ensures named { IfOk result (λ _. 3 ≤ length words.now) }
    ensures command { IfOk result (λ job. command_by job ≡ Command.Export) }
{
    match words {
        [_, _, _, level, element, face] => {
            exporting(level.as_str(), element.as_str(), face.as_str())
        }
        [_, _, _, _, _, _, _, ..] => Err(UsageFault::ExtraWord(6)),
        _ => Err(missing(words)),
    }
}

/// The job of the words of a command.
fn job_in(command: Command, words: &[String]) -> Result<Job, UsageFault>
    ensures exact { result ≡ job_in command (texts words.now) }
    ensures named { IfOk result (λ _. 3 ≤ length words.now) }
    ensures command { IfOk result (λ job. command_by job ≡ command) }
{
    match command {
        Command::Pack => Ok(Job::Pack(pack_job(Taker::Pack, words)?)),
        Command::Unpack => unpack_job(words),
        Command::Audit => audit_job(words),
        Command::Trial => trial_job(words),
        Command::Import => import_job(words),
        Command::Export => export_job(words),
        Command::PackKtx => Ok(Job::PackKtx(pack_job(Taker::PackKtx, words)?)),
    }
}

/// The job of the words of a command line, without the program's name.
///
/// # Errors
///
/// The first fault of the words: no words, an unknown command, a word that is missing or one too
/// many, and then, in order, the first word that is not a number in its range, not a footprint, not
/// a preset, not an option of the command, an option that was given before, or an option with a
/// wrong value.
#[tactic(auto, unfolding(crate::specs::Jobs::job_of))]
pub fn job_of(words: &[String]) -> Result<Job, UsageFault>
    ensures exact { result ≡ job_of (texts words.now) }
    ensures named { IfOk result (λ _. 3 ≤ length words.now) }
    ensures command { IfOk result (λ job. command_of (slice_index_or (texts words.now) 0 [])
        ≡ Some (command_by job)) }
{
    let Some(first) = words.first() else {
        return Err(UsageFault::NoCommand);
    };
    let command = Command::from_word(first.as_str()).ok_or(UsageFault::UnknownCommand)?;
    job_in(command, words)
}
