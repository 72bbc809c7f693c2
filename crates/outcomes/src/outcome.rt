// How a command ends.
ghost use Rattle.std.specs.Prelude.{◌≡◌};
ghost use Rattle.outcomes.specs.Outcomes.{status_of, read_outcome, write_outcome, report_outcome};
ghost use Rattle.outcomes.specs.declared.outcome.Outcome.TheVariants.{Image, Ktx, Astc, Source};

use astc_file::{AstcFault, AstcStop};
use astc_words::UsageFault;
use ktx_file::{KtxFault, KtxStop};
use ktx_source::{SourceFault, SourceStop};
use pam_image::{ImageFault, ImageStop};
use tex_shelf::{ShelfStop, Stop};
use thiserror::Error;

/// The end of a command. The `Display` text of a refusal or failure is the text that `main` prints.
#[derive(Clone, Copy, Debug, PartialEq, Eq, Error)]
pub enum Outcome {
    /// The command did its work.
    #[error("done")]
    Done,
    /// An audit ended, and found this number of bad blocks, at least one.
    #[error("{0} bad blocks")]
    Found(u64),
    /// The words are not a command, and nothing was called.
    #[error("{0}")]
    Usage(UsageFault),
    /// The input is not a PAM file of images, and no file changed.
    #[error("{0}")]
    Image(ImageFault),
    /// The input is not a texture, and no file changed.
    #[error("{0}")]
    Ktx(KtxFault),
    /// A read failed, and no file changed.
    #[error("a read failed")]
    ReadFault,
    /// A write failed.
    #[error("a write failed")]
    WriteFault,
    /// The report failed. The file is whole.
    #[error("the report failed")]
    ReportFault,
    /// There was no memory.
    #[error("out of memory")]
    Memory,
    /// The input is not an `.astc` file, and no file changed.
    #[error("{0}")]
    Astc(AstcFault),
    /// The texture has no image of this name, whose word at this place is too great. No file
    /// changed.
    #[error("word {0} names no image of the file")]
    Absent(u64),
    /// The input is not an uncompressed texture, and no file changed.
    #[error("{0}")]
    Source(SourceFault),
}

/// The exit status of the program: 0 after all was done, else one number for each kind of end.
pub fn status(outcome: &Outcome) -> u8
    ensures { result ≡ status_of outcome.now }
{
    match outcome {
        Outcome::Done => 0,
        Outcome::Found(_) => 1,
        Outcome::Usage(_) => 2,
        Outcome::Image(_) => 3,
        Outcome::Ktx(_) => 4,
        Outcome::ReadFault => 5,
        Outcome::WriteFault => 6,
        Outcome::ReportFault => 7,
        Outcome::Memory => 8,
        Outcome::Astc(_) => 9,
        Outcome::Absent(_) => 10,
        Outcome::Source(_) => 11,
    }
}

impl From<ImageStop> for Outcome {
    ghost from_gives = { λ stop outcome. outcome ≡ read_outcome Image stop };

    fn from(stop: ImageStop) -> Self {
        match stop {
            Stop::Fault(fault) => Outcome::Image(fault),
            Stop::ReadFault => Outcome::ReadFault,
            Stop::NoMemory => Outcome::Memory,
        }
    }
}

impl From<KtxStop> for Outcome {
    ghost from_gives = { λ stop outcome. outcome ≡ read_outcome Ktx stop };

    fn from(stop: KtxStop) -> Self {
        match stop {
            Stop::Fault(fault) => Outcome::Ktx(fault),
            Stop::ReadFault => Outcome::ReadFault,
            Stop::NoMemory => Outcome::Memory,
        }
    }
}

impl From<AstcStop> for Outcome {
    ghost from_gives = { λ stop outcome. outcome ≡ read_outcome Astc stop };

    fn from(stop: AstcStop) -> Self {
        match stop {
            Stop::Fault(fault) => Outcome::Astc(fault),
            Stop::ReadFault => Outcome::ReadFault,
            Stop::NoMemory => Outcome::Memory,
        }
    }
}

impl From<SourceStop> for Outcome {
    ghost from_gives = { λ stop outcome. outcome ≡ read_outcome Source stop };

    fn from(stop: SourceStop) -> Self {
        match stop {
            Stop::Fault(fault) => Outcome::Source(fault),
            Stop::ReadFault => Outcome::ReadFault,
            Stop::NoMemory => Outcome::Memory,
        }
    }
}

/// The outcome if writing the output stopped.
pub fn after_write(stop: ShelfStop) -> Outcome
    ensures { result ≡ write_outcome stop }
{
    match stop {
        ShelfStop::Failed => Outcome::WriteFault,
        ShelfStop::NoMemory => Outcome::Memory,
    }
}

/// The outcome if reporting stopped.
pub fn after_report(stop: ShelfStop) -> Outcome
    ensures { result ≡ report_outcome stop }
{
    match stop {
        ShelfStop::Failed => Outcome::ReportFault,
        ShelfStop::NoMemory => Outcome::Memory,
    }
}
