// Scan and replacement.
ghost use Rattle.lumeviqo.specs.Calls.{ScanCall, ReplaceCall};

use layout::{Replacement, SCAN_SIZE};

pub fn lumeviqo_scan(number: u64, stored: &[u8], shifted: &mut [u8], answer: &mut [u8]) -> usize
    ensures { ScanCall number stored.now
        shifted.old shifted.new answer.old answer.new result }
{
    if answer.len() < SCAN_SIZE {
        return 0;
    }
    let found = summary::scan_page(number, stored, shifted);
    layout::write(answer, &found)
}

pub fn lumeviqo_replace(
    number: u64,
    stored: &mut [u8],
    shifted: &mut [u8],
    fits: &[u8],
    sector: usize,
    bytes: &[u8],
    answer: &mut [u8],
) -> usize
    ensures { ReplaceCall number sector bytes.now fits.now stored.old stored.new
        shifted.old shifted.new answer.old answer.new result }
{
    if answer.len() < SCAN_SIZE {
        return 0;
    }
    let Some(lent) = parts::fits_lent(fits) else {
        return 0;
    };
    let made = summary::replace_sector(number, sector, bytes, stored, shifted, lent);
    layout::write(answer, &Replacement { made, lent })
}
