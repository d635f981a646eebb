// Some sectors of a summary scanned anew: all eight for a page, one for a replacement.
ghost use Rattle.std.specs.Prelude.{◌≡◌, ◌+◌, ◌≤◌, length};
ghost use Rattle.summary.specs.Rescan.{refitted, reshifted};

use crate::pages::sector_end;
use sector::Fit;

// The fits with those of `count` sectors from `first` on; their shifted bytes go into `shifted`.
pub(crate) fn rescan(
    number: u64,
    first: usize,
    count: usize,
    stored: &[u8],
    shifted: &mut [u8],
    fits: [Fit; 8],
) -> [Fit; 8]
    requires { (first + count ≤ 8) × (length stored.now ≡ 4096) × (length shifted.old ≡ 4080) }
    ensures value { result ≡ refitted number stored.now first fits count }
    ensures shifted_after { shifted.new ≡ reshifted number stored.now first shifted.old count }
{
    let mut next = fits;
    for done in 0..count {
        let s = first + done;
        let start = s * 512;
        let end = sector_end(s);
        let offset = sector::ap_offset(number, s as u8);
        next[s] = quick::scan_sector(&stored[start..end], offset, &mut shifted[start..end]);
    }
    next
}
