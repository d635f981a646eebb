// What was met in a family of sectors, and the end of its line.
use sector::Fit;
use std::fmt;
use std::fmt::{Display, Formatter};

#[derive(Drop)]
pub struct Seen {
    peaks: Range,
    runners_up: Range,
    sum: u64,
    same: bool,
}

#[derive(Clone, Copy)]
struct Range {
    least: u16,
    greatest: u16,
}

impl Seen {
    pub(crate) fn nothing() -> Seen {
        Seen {
            peaks: Range::EMPTY,
            runners_up: Range::EMPTY,
            sum: 0,
            same: true,
        }
    }

    // A sector more, with its fit, its shifted bytes, and whether both engines gave these.
    pub(crate) fn note(&mut self, fit: Fit, shifted: &[u8], same: bool) {
        self.peaks = self.peaks.with(fit.peak);
        self.runners_up = self.runners_up.with(fit.runner_up);
        self.sum = sum_with_fit(self.sum, fit);
        self.sum = shifted
            .iter()
            .fold(self.sum, |sum, b| sum_with(sum, u64::from(*b)));
        self.same = self.same && same;
    }
}

impl Range {
    const EMPTY: Range = Range {
        least: u16::MAX,
        greatest: 0,
    };

    fn with(self, x: u16) -> Range {
        Range {
            least: self.least.min(x),
            greatest: self.greatest.max(x),
        }
    }
}

fn sum_with_fit(sum: u64, fit: Fit) -> u64 {
    [
        u64::from(fit.step),
        u64::from(fit.peak),
        u64::from(fit.runner_up),
        u64::from(fit.exact),
        u64::from(fit.tied),
    ]
    .iter()
    .fold(sum, |sum, x| sum_with(sum, *x))
}

// Each number counts by its place. The first remainders only keep the numbers from running over.
fn sum_with(sum: u64, x: u64) -> u64 {
    (sum % 4294967296 * 31 + x % 65536) % 4294967291
}

impl Display for Seen {
    fn fmt<W: fmt::Write>(&self, f: &mut Formatter<W>) -> fmt::Result {
        let same = if self.same {
            "all same"
        } else {
            "not all same"
        };
        write!(
            f,
            "peaks {}, runners-up {}, sum {}, {same}",
            self.peaks, self.runners_up, self.sum
        )
    }
}

impl Display for Range {
    fn fmt<W: fmt::Write>(&self, f: &mut Formatter<W>) -> fmt::Result {
        write!(f, "{} to {}", self.least, self.greatest)
    }
}
