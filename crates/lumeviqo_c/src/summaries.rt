// Scan and replacement, for C.
ghost use Rattle.lumeviqo.specs.Calls.{ScanCall, ReplaceCall};

#[unsafe(no_mangle)]
pub extern "C" fn lumeviqo_scan(
    number: u64,
    stored: &[u8],
    shifted: &mut [u8],
    answer: &mut [u8],
) -> usize
    ensures { ScanCall number stored.now
        shifted.old shifted.new answer.old answer.new result }
{
    lumeviqo::lumeviqo_scan(number, stored, shifted, answer)
}

#[unsafe(no_mangle)]
pub extern "C" fn lumeviqo_replace(
    number: u64,
    stored: &mut [u8],
    shifted: &mut [u8],
    fits: &[u8],
    sector: usize,
    bytes: &[u8],
    answer: &mut [u8],
) -> usize
    ensures { ReplaceCall number sector bytes.now fits.now stored.old stored.new
        shifted.old shifted.new answer.old answer.new result }
{
    lumeviqo::lumeviqo_replace(number, stored, shifted, fits, sector, bytes, answer)
}
