// The superblock: the fields of page 0 that every known file agrees on.
ghost use Rattle.std.specs.Prelude.{◌≡◌, length};
ghost use Rattle.page.specs.Superblock.{is_supported, superblock_of, superblock_answer, checked_superblock};

use crate::fields::{pair, quad};
use crate::trailers::PAGE_SIZE;
use answers::Refusal;
use marker::occurs;

// Stored as 5E BA 7A DA.
pub const SA_MAGIC: u32 = 0xDA7A_BA5E;

// The part of the copyright text that names the engine's version, SQL Anywhere 17.0.4 of 2015.
const SA_COPYRIGHT_MARKER: [u8; 33] = *b"SAP SE, Copyright (c)2015 17.0.4.";

// The flag bits that every known file has; an edition adds bits of its own, as 0x40 or 0x20.
const FLAGS_06_BASE: u8 = 0x09;

#[derive(Clone, Copy, PartialEq, Eq)]
pub struct FormatVersion {
    pub major: u32,
    pub a: u16,
    pub b: u16,
}

impl FormatVersion {
    pub const SA17: FormatVersion = FormatVersion {
        major: 3,
        a: 201,
        b: 12,
    };

    pub fn is_supported(self) -> bool
        ensures { result ≡ is_supported self }
    {
        self == FormatVersion::SA17
    }
}

#[derive(Clone, Copy)]
pub struct Superblock {
    pub flags_06: u8,
    pub flags_06_variant_bits: u8,
    pub current_lsn: u32,
    pub format: FormatVersion,
    pub magic: u32,
    pub page_count_hint: u32,
    pub sa_marker_present: bool,
}

impl Superblock {
    // The magic is read, and not judged.
    #[tactic(auto, unfolding(crate::specs::Superblock::superblock_answer))]
    pub fn parse(page0: &[u8]) -> Result<Superblock, Refusal>
        ensures { result ≡ superblock_answer page0.now }
    {
        if page0.len() != PAGE_SIZE {
            return Err(Refusal::WrongPageLength(page0.len()));
        }
        Ok(read(page0))
    }

    #[tactic(auto, using(crate::proofs::FirstPage::checking))]
    pub fn parse_checked(page0: &[u8]) -> Result<Superblock, Refusal>
        ensures { result ≡ checked_superblock page0.now }
    {
        if page0.len() != PAGE_SIZE {
            return Err(Refusal::WrongPageLength(page0.len()));
        }
        // Before the rest is read: the marker is looked for in all of the page.
        let magic = quad(page0, 0x14);
        if magic != SA_MAGIC {
            return Err(Refusal::BadMagic(magic));
        }
        Ok(read(page0))
    }
}

#[tactic(auto, unfolding(crate::specs::Superblock::superblock_of))]
fn read(page0: &[u8]) -> Superblock
    requires { length page0.now ≡ 4096 }
    ensures { result ≡ superblock_of page0.now }
{
    let flags_06 = page0[0x06];
    Superblock {
        flags_06,
        flags_06_variant_bits: flags_06 & !FLAGS_06_BASE,
        current_lsn: quad(page0, 0x08),
        format: FormatVersion {
            major: quad(page0, 0x10),
            a: pair(page0, 0x18),
            b: pair(page0, 0x1A),
        },
        magic: quad(page0, 0x14),
        page_count_hint: quad(page0, 0x1C),
        sa_marker_present: occurs(&SA_COPYRIGHT_MARKER, page0),
    }
}
