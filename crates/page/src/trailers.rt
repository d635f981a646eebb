// The trailer: the last 16 bytes of a stored page, from 0xFF0 on. They are stored plain: no sector covers them.
ghost use Rattle.std.specs.Prelude.{◌≡◌, length};
ghost use Rattle.page.specs.Trailer.{trailer_of, reserved_zero_of, trailer_answer};

use crate::fields::quad;
use answers::Refusal;
use page_type::{PageType, case_variant};

// Eight sectors of 512 bytes, the last cut short by the trailer.
pub const PAGE_SIZE: usize = 4096;

#[derive(Clone, Copy)]
pub struct PageTrailer {
    pub row_count: u8,
    pub page_type: PageType,
    pub case_variant: bool,
    pub lsn: u32,
    pub crc: u32,
    pub reserved_zero: bool,
}

impl PageTrailer {
    #[tactic(auto, unfolding(crate::specs::Trailer::trailer_answer))]
    pub fn parse(stored: &[u8]) -> Result<PageTrailer, Refusal>
        ensures { result ≡ trailer_answer stored.now }
    {
        if stored.len() != PAGE_SIZE {
            return Err(Refusal::WrongPageLength(stored.len()));
        }
        Ok(record(stored))
    }
}

#[tactic(auto, unfolding(crate::specs::Trailer::trailer_of))]
fn record(stored: &[u8]) -> PageTrailer
    requires { length stored.now ≡ 4096 }
    ensures { result ≡ trailer_of stored.now }
{
    let letter = stored[0xFF2];
    PageTrailer {
        row_count: stored[0xFF0],
        page_type: PageType::from_byte(letter),
        case_variant: case_variant(letter),
        lsn: quad(stored, 0xFF4),
        crc: quad(stored, 0xFFC),
        reserved_zero: reserved_zero(stored),
    }
}

pub(crate) fn reserved_zero(stored: &[u8]) -> bool
    requires { length stored.now ≡ 4096 }
    ensures { result ≡ reserved_zero_of stored.now }
{
    stored[0xFF3] == 0 && quad(stored, 0xFF8) == 0
}
