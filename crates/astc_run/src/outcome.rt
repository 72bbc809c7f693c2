// How the commands end, those over parts and textures of other encoders among them.
ghost use Rattle.std.specs.Prelude.{◌≡◌};
ghost use Rattle.astc_run.specs.MoreRuns.{status_of, join_outcome, part_status, join_status};

use outcomes::{Outcome, status};
use part_file::PartFault;
use parting::{JoinEnd, JoinFault};
use thiserror::Error;

/// The end of a command over parts or over a texture of another encoder. The `Display` text of a
/// refusal or failure is the text that `main` prints.
#[derive(Clone, Copy, Debug, PartialEq, Eq, Error)]
pub enum MoreOutcome {
    /// As the other commands end.
    #[error("{0}")]
    Common(Outcome),
    /// The files are not the parts of one texture, and no file changed.
    #[error("{0}")]
    Parts(JoinFault),
}

impl From<JoinEnd> for MoreOutcome {
    ghost from_gives = { λ end outcome. outcome ≡ join_outcome end };

    fn from(end: JoinEnd) -> Self {
        match end {
            JoinEnd::Refused(fault) => MoreOutcome::Parts(fault),
            JoinEnd::Ended(outcome) => MoreOutcome::Common(outcome),
        }
    }
}

// The fault of a part file, as a status.
fn part_status(fault: &PartFault) -> u8
    ensures { result ≡ part_status fault.now }
{
    match fault {
        PartFault::WholeTexture => 12,
        PartFault::Picture => 12,
        PartFault::NoPart(_) => 12,
        PartFault::Header(_) => 12,
        PartFault::OtherHeader(_) => 12,
        PartFault::BadPlace(_, _) => 12,
        PartFault::ShortData(_) => 13,
        PartFault::TrailingBytes => 14,
    }
}

// Why files are not the parts of one texture, as a status.
fn join_status(fault: &JoinFault) -> u8
    ensures { result ≡ join_status fault.now }
{
    match fault {
        JoinFault::NoPart(_, fault) => part_status(fault),
        JoinFault::OtherTexture(_) => 15,
        JoinFault::SamePlace(_, _) => 16,
        JoinFault::MissingPlace(_) => 17,
    }
}

/// The exit status of the program: that of the outcome of other commands, and from 12 to 17 one
/// number for each fault of parts.
pub fn status_more(outcome: &MoreOutcome) -> u8
    ensures { result ≡ status_of outcome.now }
{
    match outcome {
        MoreOutcome::Common(outcome) => status(outcome),
        MoreOutcome::Parts(fault) => join_status(fault),
    }
}
