// How close a texture is to its source, and how many bits it takes.
use crate::second_look::SeenWord;
use crate::words::CommandForm;
use astc_model::{ChannelWeights, side_at_level};
use astc_run::{Job, MoreJob, job_of, more_job_of};
use file_sights::Look;
use ktx_file::header_in;
use std::fmt;
use texture::Layout;

/// After a command that packs or polishes, if its output is a file: the peak signal-to-noise ratio
/// over all levels and channels, by the weights of the command, and the bits per texel. Else
/// nothing.
#[derive(Drop)]
pub(crate) struct QualityLine<'a> {
    pub(crate) form: CommandForm,
    pub(crate) words: &'a [String],
    pub(crate) seen: &'a SeenWord,
    /// The sum of weighted squared differences, if it was reported.
    pub(crate) total: Option<u64>,
}

impl QualityLine<'_> {
    // The layout of the texture, if its header was seen.
    fn layout(&self) -> Option<Layout> {
        let sight = &self.seen.sight;
        if sight.look != Look::Readable || sight.long < 64 {
            return None;
        }
        match header_in(&sight.front) {
            Ok(header) => Some(header.layout),
            Err(_) => None,
        }
    }

    // The weights of the channels, of a command that reports errors of a whole texture by weights.
    fn weights(&self) -> Option<ChannelWeights> {
        match self.form {
            CommandForm::Pack | CommandForm::PackKtx => match job_of(self.words) {
                Ok(Job::Pack(job) | Job::PackKtx(job)) => Some(job.weights),
                _ => None,
            },
            CommandForm::Polish => match more_job_of(self.words) {
                Ok(MoreJob::Polish(job)) => Some(job.weights),
                _ => None,
            },
            _ => None,
        }
    }
}

impl fmt::Display for QualityLine<'_> {
    fn fmt<W: fmt::Write>(&self, f: &mut fmt::Formatter<W>) -> fmt::Result {
        let (Some(weights), Some(total), Some(layout)) = (self.weights(), self.total, self.layout())
        else {
            return Ok(());
        };
        let texels = texel_count(&layout);
        let is_even = weights == ChannelWeights::even();
        if total == 0 {
            f.write_str(if is_even {
                "no error"
            } else {
                "no weighted error"
            })?;
        } else {
            let peak = texels
                .saturating_mul(weight_sum(weights))
                .saturating_mul(255 * 255);
            let ratio = Hundredths(hundredths_of_decibels(peak, total));
            let name = if is_even { "PSNR" } else { "weighted PSNR" };
            write!(f, "{name} {ratio} dB")?;
        }
        let bits = u64::from(layout.all_blocks()).saturating_mul(128 * 100);
        let each = Hundredths(rounded(bits, texels));
        writeln!(f, ", {each} bits per texel")
    }
}

/// The texels of all images of all levels.
fn texel_count(layout: &Layout) -> u64 {
    let shape = layout.shape();
    let mut texels = 0u64;
    for level in 0..shape.levels.min(31) {
        let width = u64::from(side_at_level(shape.width, level));
        let height = u64::from(side_at_level(shape.height, level));
        texels = texels.saturating_add(width.saturating_mul(height));
    }
    texels.saturating_mul(u64::from(layout.image_count()))
}

/// The sum of the weights of all channels.
fn weight_sum(weights: ChannelWeights) -> u64 {
    let mut sum = 0u64;
    for weight in weights.of() {
        sum = sum.saturating_add(u64::from(weight));
    }
    sum
}

/// A quotient, rounded to the nearest number; 0 of nothing.
fn rounded(number: u64, by: u64) -> u64 {
    number.saturating_add(by / 2).checked_div(by).unwrap_or(0)
}

/// Ten times the decimal logarithm of a quotient, in hundredths; 0 if the quotient is under 1.
fn hundredths_of_decibels(number: u64, by: u64) -> u64 {
    let quotient = (u128::from(number) << 32)
        .checked_div(u128::from(by))
        .unwrap_or(0);
    let logarithm = log2_in_65536ths(quotient).saturating_sub(32 << 16);
    rounded(logarithm.saturating_mul(30_103), 100 << 16)
}

/// The logarithm of a number to the base 2, in 65,536ths, rounded down; 0 of 0.
fn log2_in_65536ths(number: u128) -> u64 {
    let exponent = number.checked_ilog2().unwrap_or(0);
    let mut logarithm = u64::from(exponent) << 16;
    // the number over its greatest power of 2: from 1 to under 2, in 2^31 parts
    let mut part = if exponent < 31 {
        number << (31 - exponent)
    } else {
        number >> (exponent - 31)
    };
    for bit in 0..16u32 {
        part = part.saturating_mul(part) >> 31;
        if part >> 32 > 0 {
            part >>= 1;
            logarithm |= (1 << 15) >> bit;
        }
    }
    logarithm
}

/// A number of hundredths, as `44.91`.
#[derive(Clone, Copy)]
struct Hundredths(u64);

impl fmt::Display for Hundredths {
    fn fmt<W: fmt::Write>(&self, f: &mut fmt::Formatter<W>) -> fmt::Result {
        let whole = self.0 / 100;
        let rest = self.0 % 100;
        write!(f, "{whole}.{rest:02}")
    }
}
