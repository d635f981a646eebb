// Where a bv came from, how far it can be trusted, and on what grounds.
ghost use Rattle.std.specs.Prelude.{◌≡◌};
ghost use Rattle.answers.specs.Values.{placed};
ghost use Rattle.answers.specs.Trust.{source_number, confidence_number, evidence_number, evidence_values};

use crate::tables::Table;
use crate::values::Values;

// How a page's bv was determined.
#[derive(Clone, Copy)]
pub enum Source {
    TrailerRowCount,
    ExactSectors,
    Histogram,
    Supplied,
    Corroborated,
    Unallocated,
}

impl Source {
    pub fn number(self) -> u8
        ensures { result ≡ source_number self }
    {
        match self {
            Source::TrailerRowCount => 1,
            Source::ExactSectors => 2,
            Source::Histogram => 3,
            Source::Supplied => 4,
            Source::Corroborated => 5,
            Source::Unallocated => 6,
        }
    }
}

// How far a page's bv can be trusted, the least first.
#[derive(Clone, Copy)]
pub enum Confidence {
    Unallocated,
    Unverified,
    Corroborated,
    Calibrated,
    Verified,
}

impl Confidence {
    pub fn number(self) -> u8
        ensures { result ≡ confidence_number self }
    {
        match self {
            Confidence::Unallocated => 1,
            Confidence::Unverified => 2,
            Confidence::Corroborated => 3,
            Confidence::Calibrated => 4,
            Confidence::Verified => 5,
        }
    }
}

// One piece of evidence for a bv.
#[derive(Clone, Copy)]
pub enum Evidence {
    TrailerRowCount,
    ExactSectors { count: u16, dissent: u16 },
    BlockAnchor,
    ZeroMass { zeros: u16, lead: u16 },
    Unallocated,
}

impl Evidence {
    pub fn number(self) -> u8
        ensures { result ≡ evidence_number self }
    {
        match self {
            Evidence::TrailerRowCount => 1,
            Evidence::ExactSectors { .. } => 2,
            Evidence::BlockAnchor => 3,
            Evidence::ZeroMass { .. } => 4,
            Evidence::Unallocated => 5,
        }
    }

    pub fn values(self) -> Values
        ensures { result ≡ placed (evidence_values self) }
    {
        match self {
            Evidence::TrailerRowCount => Values::of(&[]),
            Evidence::ExactSectors { count, dissent } => Values::of(&[
                count as u64,
                dissent as u64,
            ]),
            Evidence::BlockAnchor => Values::of(&[]),
            Evidence::ZeroMass { zeros, lead } => Values::of(&[zeros as u64, lead as u64]),
            Evidence::Unallocated => Values::of(&[]),
        }
    }
}

// The evidence for a bv, in document 01's order.
pub type Grounds = Table<Evidence, 4>;
