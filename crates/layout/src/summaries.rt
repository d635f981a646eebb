// A scan and a replacement: the answer part and eight fits.
ghost use Rattle.parts.specs.Parts.{fits_size, fits_fields};
ghost use Rattle.parts.proofs.Sizes.{fits-size};
ghost use Rattle.layout.specs.Layouts.{scan_size, replacement_fields};
ghost use Rattle.layout.specs.Sizes.{fits-small, replacement-size};

use crate::whole::{Layout, Record};
use answers::Refusal;
use parts::{ANSWER_SIZE, FITS_SIZE, put_answer, put_entries};
use sector::Fit;

pub const SCAN_SIZE: usize = ANSWER_SIZE + FITS_SIZE;

impl Record for [Fit; 8] {
    ghost SIZE = { fits_size };

    const SIZE: usize = FITS_SIZE;

    ghost fields = { fits_fields };

    ghost sized = { fits-size };

    ghost small = { fits-small };

    fn put(&self, out: &mut [u8], at: usize) -> usize {
        put_entries(out, at, self)
    }
}

// A replacement: the fits that it made, or, where it was refused, those that were lent.
#[derive(Clone, Copy)]
pub struct Replacement {
    pub made: Result<[Fit; 8], Refusal>,
    pub lent: [Fit; 8],
}

impl Layout for Replacement {
    ghost SIZE = { scan_size };

    const SIZE: usize = SCAN_SIZE;

    ghost fields = { λ r. replacement_fields r.lent r.made };

    ghost sized = { λ r. replacement-size r.lent r.made };

    fn put(&self, out: &mut [u8], at: usize) -> usize {
        let at = put_answer(out, at, self.made.err());
        put_entries(out, at, &self.made.unwrap_or(self.lent))
    }
}
