// The jobs of the commands over parts and other encoders' textures.
ghost use Rattle.std.specs.Prelude.{◌≡◌, ◌≤◌, ◌<◌, ◌+◌, ◌^◌, length, [], Some, IfOk, slice_index_or};
ghost use Rattle.astc_words.specs.Commands.{texts};
ghost use Rattle.astc_words.specs.Jobs.{pack_with};
ghost use Rattle.astc_words.specs.More.{more_command_of, more_command_by, part_place, parting, part_job, join_job, polishing, polish_job, more_job_in, more_job_of, least_words};

use crate::numbers::{footprint_at, number_at, preset_at};
use crate::options::{OptionsSoFar, Taker, no_options, options_from};
use crate::reading::{missing, pack_with};
use crate::{AuditJob, MoreJob, PartJob, PartPlace, UsageFault};
use astc_model::ChannelWeights;

/// A command over parts or textures of other encoders, by its name.
#[derive(Clone, Copy, Debug, PartialEq, Eq)]
pub enum MoreCommand {
    Part,
    Join,
    Polish,
}

impl MoreCommand {
    /// The command that a word such as `part` names; None exactly if it names none.
    pub fn from_word(word: &str) -> Option<MoreCommand>
        ensures { result ≡ more_command_of word.now }
    {
        if word == "part" {
            return Some(MoreCommand::Part);
        }
        if word == "join" {
            return Some(MoreCommand::Join);
        }
        if word == "polish" {
            return Some(MoreCommand::Polish);
        }
        None
    }
}

/// The place of a part, if it is below the number of parts.
fn part_place(place: &str, parts: &str) -> Result<PartPlace, UsageFault>
    ensures { result ≡ part_place place.now parts.now }
{
    let place = number_at::<0, 65_535>(3, place)?.get();
    let parts = number_at::<1, 65_536>(4, parts)?.get();
    PartPlace::new(place, parts).ok_or(UsageFault::BadNumber(3))
}

fn parting(
    at: PartPlace,
    footprint: &str,
    preset: &str,
    options: &[String],
) -> Result<MoreJob, UsageFault>
    requires { length options.now < 2 ^ 63 }
    ensures exact { result ≡ parting at footprint.now preset.now (texts options.now) }
    ensures least { IfOk result (λ job. least_words job ≡ 7) }
    ensures command { IfOk result (λ job. more_command_by job ≡ MoreCommand.Part) }
{
    let name = footprint_at(5, footprint)?;
    let preset = preset_at(6, preset)?;
    match options_from(Taker::Part, 7, no_options(), options) {
        Ok(options) => Ok(MoreJob::Part(PartJob {
            at,
            pack: pack_with(
                name,
                preset,
                OptionsSoFar {
                    advised: false,
                    ..options
                },
            ),
        })),
        Err(fault) => Err(fault),
    }
}

/// `part IN OUT PLACE COUNT FOOTPRINT PRESET`, then options.
fn part_job(words: &[String]) -> Result<MoreJob, UsageFault>
    ensures exact { result ≡ part_job (texts words.now) }
    ensures least { IfOk result (λ job. least_words job ≤ length words.now) }
    ensures command { IfOk result (λ job. more_command_by job ≡ MoreCommand.Part) }
{
    match words {
        [_, _, _, place, parts, footprint, preset, options @ ..] => {
            let at = part_place(place.as_str(), parts.as_str())?;
            parting(at, footprint.as_str(), preset.as_str(), options)
        }
        _ => Err(missing(words)),
    }
}

/// `join OUT PART..`.
fn join_job(words: &[String]) -> Result<MoreJob, UsageFault>
    ensures exact { result ≡ join_job (texts words.now) }
    ensures least { IfOk result (λ job. least_words job ≤ length words.now) }
    ensures command { IfOk result (λ job. more_command_by job ≡ MoreCommand.Join) }
{
    match words {
        [_, _, _, ..] => Ok(MoreJob::Join),
        _ => Err(missing(words)),
    }
}

fn polishing(preset: &str, options: &[String]) -> Result<MoreJob, UsageFault>
    requires { length options.now < 2 ^ 63 }
    ensures exact { result ≡ polishing preset.now (texts options.now) }
    ensures least { IfOk result (λ job. least_words job ≡ 5) }
    ensures command { IfOk result (λ job. more_command_by job ≡ MoreCommand.Polish) }
{
    let preset = preset_at(4, preset)?;
    match options_from(Taker::Audit, 5, no_options(), options) {
        Ok(options) => Ok(MoreJob::Polish(AuditJob {
            preset,
            weights: options.weights.unwrap_or(ChannelWeights::even()),
        })),
        Err(fault) => Err(fault),
    }
}

/// `polish IN OTHER OUT PRESET`, then the option of an audit.
fn polish_job(words: &[String]) -> Result<MoreJob, UsageFault>
    ensures exact { result ≡ polish_job (texts words.now) }
    ensures least { IfOk result (λ job. least_words job ≤ length words.now) }
    ensures command { IfOk result (λ job. more_command_by job ≡ MoreCommand.Polish) }
{
    match words {
        [_, _, _, _, preset, options @ ..] => polishing(preset.as_str(), options),
        _ => Err(missing(words)),
    }
}

/// The job of the words of a command.
fn more_job_in(command: MoreCommand, words: &[String]) -> Result<MoreJob, UsageFault>
    ensures exact { result ≡ more_job_in command (texts words.now) }
    ensures least { IfOk result (λ job. least_words job ≤ length words.now) }
    ensures command { IfOk result (λ job. more_command_by job ≡ command) }
{
    match command {
        MoreCommand::Part => part_job(words),
        MoreCommand::Join => join_job(words),
        MoreCommand::Polish => polish_job(words),
    }
}

/// The job of the words of a command line over parts or textures of other encoders, without the
/// program's name.
///
/// # Errors
///
/// The first fault of the words, as in `job_of`; a place that is not below the number of parts is
/// not a number in its range.
#[tactic(auto, unfolding(crate::specs::More::more_job_of))]
pub fn more_job_of(words: &[String]) -> Result<MoreJob, UsageFault>
    ensures exact { result ≡ more_job_of (texts words.now) }
    ensures least { IfOk result (λ job. least_words job ≤ length words.now) }
    ensures command { IfOk result (λ job. more_command_of (slice_index_or (texts words.now) 0 [])
        ≡ Some (more_command_by job)) }
{
    let Some(first) = words.first() else {
        return Err(UsageFault::NoCommand);
    };
    let command = MoreCommand::from_word(first.as_str()).ok_or(UsageFault::UnknownCommand)?;
    more_job_in(command, words)
}
