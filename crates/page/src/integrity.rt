// Whether a stored page was ever written, and whether what was written still stands.
ghost use Rattle.std.specs.Prelude.{◌≡◌};
ghost use Rattle.answers.specs.Answers.{answer_in};
ghost use Rattle.page.specs.Integrity.{is_unallocated, written_integrity, integrity_of};

use crate::fields::quad;
use crate::trailers::{PAGE_SIZE, reserved_zero};
use answers::Refusal;
use numbers::all_are;

#[tactic(auto, unfolding(crate::specs::Integrity::is_unallocated))]
pub fn is_unallocated(stored: &[u8]) -> bool
    ensures { result ≡ is_unallocated stored.now }
{
    stored.len() == PAGE_SIZE && all_are(stored, 0)
}

// An unallocated page has no CRC to hold.
#[tactic(auto, unfolding(crate::specs::Integrity::integrity_of))]
pub fn check_integrity(number: u64, stored: &[u8]) -> Result<(), Refusal>
    ensures { answer_in result ≡ integrity_of number stored.now }
{
    if is_unallocated(stored) {
        return Ok(());
    }
    check_written(number, stored)
}

// A page that is known not to be all zero. The CRC covers the stored bytes, so it says nothing of a bv. A bad CRC hides a bad trailer.
#[tactic(auto, using(crate::proofs::Verdicts::standing), unfolding(crate::specs::Integrity::written_integrity))]
pub fn check_written(number: u64, stored: &[u8]) -> Result<(), Refusal>
    ensures { answer_in result ≡ written_integrity number stored.now }
{
    if stored.len() != PAGE_SIZE {
        return Err(Refusal::WrongPageLength(stored.len()));
    }
    let crc = quad(stored, 0xFFC);
    let computed = crc::crc32(&stored[..0xFFC]);
    if crc != computed {
        return Err(Refusal::BadCrc {
            page: number,
            stored: crc,
            computed,
        });
    }
    // Page 0 has text where other pages have a trailer.
    if number != 0 && !reserved_zero(stored) {
        return Err(Refusal::BadTrailer(number));
    }
    Ok(())
}
