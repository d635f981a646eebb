// The scan of a sector by classes, where it has sixteen of one size.
ghost use Rattle.std.specs.Prelude.{◌≡◌, length};
ghost use Rattle.sector.specs.Scan.{sector_fit, sector_out};

use crate::counts::modal_counts;
use sector::Fit;

// The fit of a sector of at most 512 bytes; its shifted bytes go into `out`, which has its length. Else a blank, and `out` stays.
pub fn scan_sector(stored: &[u8], offset: u8, out: &mut [u8]) -> Fit
    ensures value { result ≡ sector_fit offset stored.now (length out.old) }
    ensures out_after { out.new ≡ sector_out offset stored.now out.old }
{
    let n = stored.len();
    if n > 512 || n % 16 != 0 || out.len() != n {
        return sector::scan_sector(stored, offset, out);
    }
    let counts = modal_counts(stored, offset, out);
    let fit = sector::table_fit(counts, n);
    sector::write_shifted(stored, offset, fit.step, out);
    fit
}
