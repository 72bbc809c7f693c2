// The progress of an output, as text.
use std::fmt;

/// A number in groups of three digits, as `12,345`.
#[derive(Clone, Copy, Debug, PartialEq, Eq)]
pub struct Grouped(pub u64);

/// The value of a group of digits, the greatest first.
static GROUPS: [u64; 7] = [
    1_000_000_000_000_000_000,
    1_000_000_000_000_000,
    1_000_000_000_000,
    1_000_000_000,
    1_000_000,
    1_000,
    1,
];

impl fmt::Display for Grouped {
    fn fmt<W: fmt::Write>(&self, f: &mut fmt::Formatter<W>) -> fmt::Result {
        let mut is_first = true;
        for unit in GROUPS {
            let group = self.0.checked_div(unit).unwrap_or(0) % 1000;
            if !is_first {
                write!(f, ",{group:03}")?;
            } else if group > 0 || unit == 1 {
                write!(f, "{group}")?;
                is_first = false;
            }
        }
        Ok(())
    }
}

/// The progress of an output, and an estimate of the time left, as text.
#[derive(Clone, Copy, Debug, PartialEq, Eq)]
pub struct RestEstimate {
    /// The bytes that are written.
    pub stands: u64,
    /// The bytes of the whole output, if they are known.
    pub whole: Option<u64>,
    /// The milliseconds since the output began to grow, if a clock measures them.
    pub millis: Option<u64>,
}

impl RestEstimate {
    // The percentage that is written, 100 at most; 100 for an empty output.
    fn percent(&self) -> Option<u64> {
        let part = u128::from(self.stands).saturating_mul(100);
        let percent = part.checked_div(u128::from(self.whole?)).unwrap_or(100);
        u64::try_from(percent.min(100)).ok()
    }

    // The seconds for the rest at the rate so far, if a second or more has passed and some bytes
    // are left.
    fn seconds_left(&self) -> Option<u64> {
        let rest = self.whole?.checked_sub(self.stands)?;
        let millis = self.millis?;
        if rest == 0 || millis < 1000 {
            return None;
        }
        let all = u128::from(millis).saturating_mul(u128::from(rest));
        let left = all.checked_div(u128::from(self.stands))?;
        u64::try_from(left / 1000).ok()
    }
}

/// As `43 % (12,345 of 28,672 bytes), about 12 s left`, or `12,345 bytes` if no more is known.
impl fmt::Display for RestEstimate {
    fn fmt<W: fmt::Write>(&self, f: &mut fmt::Formatter<W>) -> fmt::Result {
        let stands = Grouped(self.stands);
        match (self.percent(), self.whole) {
            (Some(percent), Some(whole)) => {
                let whole = Grouped(whole);
                write!(f, "{percent} % ({stands} of {whole} bytes)")?;
            }
            _ => write!(f, "{stands} bytes")?,
        }
        match self.seconds_left() {
            Some(seconds) => write!(f, ", about {seconds} s left"),
            None => Ok(()),
        }
    }
}
