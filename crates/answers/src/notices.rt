// Warnings: what was accepted under leniency, with the original's fields.
ghost use Rattle.std.specs.Prelude.{◌≡◌};
ghost use Rattle.answers.specs.Values.{placed};
ghost use Rattle.answers.specs.Warns.{warning_number, warning_values};

use crate::tables::Table;
use crate::values::Values;

// What was accepted. The other candidates of an ambiguous calibration stand beside it.
#[derive(Clone, Copy)]
pub enum WarningKind {
    BadCrc,
    BadTrailer,
    AmbiguousCalibration {
        chosen: u8,
    },
    UnverifiedKeystream {
        bv: u8,
    },
    LowConfidenceSector {
        sector: u8,
        peak: u16,
        runner_up: u16,
    },
    UnverifiedDirectory,
    UnknownPrelude,
    SlotDirectoryTruncated {
        found: usize,
        expected: usize,
    },
    AmbiguousSlotDirectory,
    SlotOffsetsInDirectory {
        dropped: usize,
    },
}

impl WarningKind {
    // The number of the answer that the warning stands for.
    pub fn number(self) -> u8
        ensures { result ≡ warning_number self }
    {
        match self {
            WarningKind::BadCrc => 3,
            WarningKind::BadTrailer => 4,
            WarningKind::AmbiguousCalibration { .. } => 5,
            WarningKind::UnverifiedKeystream { .. } => 6,
            WarningKind::LowConfidenceSector { .. } => 7,
            WarningKind::UnverifiedDirectory => 8,
            WarningKind::UnknownPrelude => 9,
            WarningKind::SlotDirectoryTruncated { .. } => 10,
            WarningKind::AmbiguousSlotDirectory => 11,
            WarningKind::SlotOffsetsInDirectory { .. } => 12,
        }
    }

    // What the warning says beside its page.
    pub fn values(self) -> Values
        ensures { result ≡ placed (warning_values self) }
    {
        match self {
            WarningKind::BadCrc => Values::of(&[]),
            WarningKind::BadTrailer => Values::of(&[]),
            WarningKind::AmbiguousCalibration { chosen } => Values::of(&[chosen as u64]),
            WarningKind::UnverifiedKeystream { bv } => Values::of(&[bv as u64]),
            WarningKind::LowConfidenceSector {
                sector,
                peak,
                runner_up,
            } => Values::of(&[sector as u64, peak as u64, runner_up as u64]),
            WarningKind::UnverifiedDirectory => Values::of(&[]),
            WarningKind::UnknownPrelude => Values::of(&[]),
            WarningKind::SlotDirectoryTruncated { found, expected } => {
                Values::of(&[found as u64, expected as u64])
            }
            WarningKind::AmbiguousSlotDirectory => Values::of(&[]),
            WarningKind::SlotOffsetsInDirectory { dropped } => Values::of(&[dropped as u64]),
        }
    }
}

#[derive(Clone, Copy)]
pub struct Warning {
    pub page: u64,
    pub kind: WarningKind,
}

// The warnings of a decoding: one on integrity, one on the choice of bv, one for each sector.
pub type Warnings = Table<Warning, 10>;

// The warnings of a parse.
pub type ParseWarnings = Table<Warning, 1026>;
