// Integrity, trailer and superblock.
ghost use Rattle.std.specs.Prelude.{◌≡◌};
ghost use Rattle.parts.specs.Parts.{answer_size, answer_fields};
ghost use Rattle.parts.proofs.Sizes.{answer-size};
ghost use Rattle.layout.specs.Layouts.{type_number, record_fields, record_size, header_fields, header_size};
ghost use Rattle.layout.specs.Sizes.{record-size, record-small, header-size, header-small};

use crate::whole::{Layout, Record};
use answers::Refusal;
use numbers::Number;
use page::{PageTrailer, Superblock};
use page_type::PageType;
use parts::{ANSWER_SIZE, put_answer};

const RECORD_SIZE: usize = 13;

const HEADER_SIZE: usize = 23;

pub const TRAILER_SIZE: usize = ANSWER_SIZE + RECORD_SIZE;

pub const SUPERBLOCK_SIZE: usize = ANSWER_SIZE + HEADER_SIZE;

// Of integrity, the answer part alone.
impl Layout for Option<Refusal> {
    ghost SIZE = { answer_size };

    const SIZE: usize = ANSWER_SIZE;

    ghost fields = { answer_fields };

    ghost sized = { answer-size };

    fn put(&self, out: &mut [u8], at: usize) -> usize {
        put_answer(out, at, *self)
    }
}

impl Record for PageTrailer {
    ghost SIZE = { record_size };

    const SIZE: usize = RECORD_SIZE;

    ghost fields = { record_fields };

    ghost sized = { record-size };

    ghost small = { record-small };

    fn put(&self, out: &mut [u8], at: usize) -> usize {
        let at = self.row_count.put(out, at);
        let at = self.page_type.as_byte().put(out, at);
        let at = type_number(self.page_type).put(out, at);
        let at = self.case_variant.put(out, at);
        let at = self.lsn.put(out, at);
        let at = self.crc.put(out, at);
        self.reserved_zero.put(out, at)
    }
}

impl Record for Superblock {
    ghost SIZE = { header_size };

    const SIZE: usize = HEADER_SIZE;

    ghost fields = { header_fields };

    ghost sized = { header-size };

    ghost small = { header-small };

    fn put(&self, out: &mut [u8], at: usize) -> usize {
        let at = self.flags_06.put(out, at);
        let at = self.flags_06_variant_bits.put(out, at);
        let at = self.current_lsn.put(out, at);
        let at = self.format.major.put(out, at);
        let at = self.format.a.put(out, at);
        let at = self.format.b.put(out, at);
        let at = self.magic.put(out, at);
        let at = self.page_count_hint.put(out, at);
        self.sa_marker_present.put(out, at)
    }
}

fn type_number(t: PageType) -> u8
    ensures { result ≡ type_number t }
{
    match t {
        PageType::Extent => 1,
        PageType::Alloc => 2,
        PageType::Map => 3,
        PageType::Header => 4,
        PageType::Catalog => 5,
        PageType::Bootstrap => 6,
        PageType::Index => 7,
        PageType::Other(_) => 0,
    }
}
