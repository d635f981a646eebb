// The scan of a sector, at once where it is exact.
ghost use Rattle.std.specs.Prelude.{◌≡◌, ◌≤◌, length};
ghost use Rattle.sector.specs.Scan.{sector_fit, sector_out};
ghost use Rattle.quick.specs.Line.{exact_fit};

use crate::line::{first_break, first_step};
use sector::Fit;

// The fit of a sector of at most 512 bytes; its shifted bytes go into `out`, which has its length. Else a blank, and `out` stays.
pub fn scan_sector(stored: &[u8], offset: u8, out: &mut [u8]) -> Fit
    ensures value { result ≡ sector_fit offset stored.now (length out.old) }
    ensures out_after { out.new ≡ sector_out offset stored.now out.old }
{
    let n = stored.len();
    if n < 2 || n > 512 || out.len() != n || first_break(stored) < n {
        return classes::scan_sector(stored, offset, out);
    }
    out.fill(stored[0].wrapping_sub(offset));
    exact_fit(first_step(stored), n)
}

// Under any other step no two neighbours agree, and under the one 128 away every second byte does: it is the runner-up.
fn exact_fit(step: u8, n: usize) -> Fit
    requires { (2 ≤ n) × (n ≤ 512) }
    ensures { result ≡ exact_fit step n }
{
    let half = n - n / 2;
    Fit {
        step,
        peak: n as u16,
        runner_up: half as u16,
        exact: true,
        tied: 1,
    }
}
