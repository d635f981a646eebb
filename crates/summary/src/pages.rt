// The scan of a page.
ghost use Rattle.std.specs.Prelude.{◌≡◌, None, length};
ghost use Rattle.answers.specs.Answers.{answer_in};
ghost use Rattle.summary.specs.Page.{sector_end, checked, page_scan_of, scanned};

use crate::rescan::rescan;
use answers::Refusal;
use sector::Fit;

// The fits of a stored page; its shifted bytes go into `shifted`. An all-zero page is scanned like any other; a refusal writes nothing.
pub fn scan_page(number: u64, stored: &[u8], shifted: &mut [u8]) -> Result<[Fit; 8], Refusal>
    ensures value { result ≡ page_scan_of number stored.now (length shifted.old) }
    ensures shifted_after { shifted.new ≡ scanned number stored.now shifted.old }
{
    check_sizes(stored, shifted)?;
    Ok(rescan(number, 0, 8, stored, shifted, Fit::blanks()))
}

// Checks 1 and 2: the page is whole, and the buffer is that of its shifted bytes.
pub(crate) fn check_sizes(stored: &[u8], shifted: &[u8]) -> Result<(), Refusal>
    ensures { answer_in result ≡ checked (length stored.now) (length shifted.now) None }
{
    if stored.len() != 4096 {
        return Err(Refusal::WrongPageLength(stored.len()));
    }
    if shifted.len() != 4080 {
        return Err(Refusal::WrongBufferLength(shifted.len()));
    }
    Ok(())
}

// Where the data of sector `s` end: those of the last one before the trailer.
pub fn sector_end(s: usize) -> usize
    ensures { result ≡ sector_end s }
{
    if s < 7 { s * 512 + 512 } else { 4080 }
}
