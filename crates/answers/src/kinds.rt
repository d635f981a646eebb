// The refusals, each with its number and values: document 01's table without its 15 (request #107), and 20 of request #109.
ghost use Rattle.std.specs.Prelude.{◌≡◌};
ghost use Rattle.answers.specs.Values.{placed};
ghost use Rattle.answers.specs.Answers.{refusal_number, refusal_values, reason_number};

use crate::tables::Table;
use crate::values::Values;

// Why slot-like data is no directory.
#[derive(Clone, Copy)]
pub enum Reason {
    CountBelowFour,
    FewerThanEightLive,
    Unconfirmed,
}

impl Reason {
    pub fn number(self) -> u8
        ensures { result ≡ reason_number self }
    {
        match self {
            Reason::CountBelowFour => 1,
            Reason::FewerThanEightLive => 2,
            Reason::Unconfirmed => 3,
        }
    }
}

// Why a page, a replacement, a row or a line is refused. The candidates of an ambiguous calibration stand beside it.
#[derive(Clone, Copy)]
pub enum Refusal {
    WrongPageLength(usize),
    WrongBufferLength(usize),
    BadCrc {
        page: u64,
        stored: u32,
        computed: u32,
    },
    BadTrailer(u64),
    AmbiguousCalibration(u64),
    KeystreamUnverified {
        page: u64,
        bv: u8,
    },
    LowConfidenceKeystream {
        page: u64,
        sector: u8,
        peak: u16,
        runner_up: u16,
    },
    NoSlotDirectory {
        page: u64,
        reason: Reason,
    },
    UnknownPrelude(u64),
    SlotDirectoryTruncated {
        page: u64,
        found: usize,
        expected: usize,
        stop: usize,
    },
    AmbiguousSlotDirectory(u64),
    SlotOffsetInDirectory {
        page: u64,
        offset: usize,
        end: usize,
    },
    BadMagic(u32),
    BadReplacement(usize),
    NoSuchRow(usize),
    MalformedLine,
    LimitOutOfRange(usize),
}

impl Refusal {
    // Document 01's number of the refusal.
    pub fn number(self) -> u8
        ensures { result ≡ refusal_number self }
    {
        match self {
            Refusal::WrongPageLength(_) => 1,
            Refusal::WrongBufferLength(_) => 2,
            Refusal::BadCrc { .. } => 3,
            Refusal::BadTrailer(_) => 4,
            Refusal::AmbiguousCalibration(_) => 5,
            Refusal::KeystreamUnverified { .. } => 6,
            Refusal::LowConfidenceKeystream { .. } => 7,
            Refusal::NoSlotDirectory { .. } => 8,
            Refusal::UnknownPrelude(_) => 9,
            Refusal::SlotDirectoryTruncated { .. } => 10,
            Refusal::AmbiguousSlotDirectory(_) => 11,
            Refusal::SlotOffsetInDirectory { .. } => 12,
            Refusal::BadMagic(_) => 13,
            Refusal::BadReplacement(_) => 14,
            Refusal::NoSuchRow(_) => 16,
            Refusal::MalformedLine => 17,
            Refusal::LimitOutOfRange(_) => 20,
        }
    }

    // What it returns beside its number.
    pub fn values(self) -> Values
        ensures { result ≡ placed (refusal_values self) }
    {
        match self {
            Refusal::WrongPageLength(length) => Values::of(&[length as u64]),
            Refusal::WrongBufferLength(length) => Values::of(&[length as u64]),
            Refusal::BadCrc {
                page,
                stored,
                computed,
            } => Values::of(&[page, stored as u64, computed as u64]),
            Refusal::BadTrailer(page) => Values::of(&[page]),
            Refusal::AmbiguousCalibration(page) => Values::of(&[page]),
            Refusal::KeystreamUnverified { page, bv } => Values::of(&[page, bv as u64]),
            Refusal::LowConfidenceKeystream {
                page,
                sector,
                peak,
                runner_up,
            } => Values::of(&[page, sector as u64, peak as u64, runner_up as u64]),
            Refusal::NoSlotDirectory { page, reason } => Values::of(&[
                page,
                reason.number() as u64,
            ]),
            Refusal::UnknownPrelude(page) => Values::of(&[page]),
            Refusal::SlotDirectoryTruncated {
                page,
                found,
                expected,
                stop,
            } => Values::of(&[page, found as u64, expected as u64, stop as u64]),
            Refusal::AmbiguousSlotDirectory(page) => Values::of(&[page]),
            Refusal::SlotOffsetInDirectory { page, offset, end } => {
                Values::of(&[page, offset as u64, end as u64])
            }
            Refusal::BadMagic(magic) => Values::of(&[magic as u64]),
            Refusal::BadReplacement(sector) => Values::of(&[sector as u64]),
            Refusal::NoSuchRow(row) => Values::of(&[row as u64]),
            Refusal::MalformedLine => Values::of(&[]),
            Refusal::LimitOutOfRange(limit) => Values::of(&[limit as u64]),
        }
    }
}

// Values of bv: the candidates of an ambiguous calibration, ascending.
pub type Bvs = Table<u8, 8>;
