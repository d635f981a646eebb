// The scan of a sector: a histogram for each of the 256 steps. A step's bytes are shifted first, many at a time, and counted after.
ghost use Rattle.std.specs.Prelude.{◌≡◌, ◌<◌, ◌≤◌, length, slice_index};
ghost use Rattle.lists.specs.Counts.{greatest, Tallies};
ghost use Rattle.lists.specs.Pieces.{each};
ghost use Rattle.sector.specs.Fit.{modal_at, fit_of};
ghost use Rattle.sector.specs.Scan.{sector_fit, sector_out, sector_modal, sector_shifted};

use crate::arith::shifted;
use crate::fits::Fit;
use crate::search::table_fit;

// The fit of a sector of at most 512 bytes; its shifted bytes go into `out`, which has its length. Else a blank, and `out` stays.
pub fn scan_sector(stored: &[u8], offset: u8, out: &mut [u8]) -> Fit
    ensures value { result ≡ sector_fit offset stored.now (length out.old) }
    ensures out_after { out.new ≡ sector_out offset stored.now out.old }
{
    if stored.len() > 512 || out.len() != stored.len() {
        return Fit::blank();
    }
    let fit = fit_of(stored, offset, out);
    write_shifted(stored, offset, fit.step, out);
    fit
}

// The modal count of one step; its shifted bytes go into `room`. 0 where a scan would give a blank, and `room` stays. Counted first and compared after: the
// two loops are faster than one that keeps the greatest count.
pub fn modal_count(stored: &[u8], offset: u8, step: u8, room: &mut [u8]) -> u16
    ensures value { result ≡ sector_modal offset stored.now step (length room.old) }
    ensures room_after { room.new ≡ sector_shifted offset stored.now step room.old }
{
    if stored.len() > 512 || room.len() != stored.len() {
        return 0;
    }
    write_shifted(stored, offset, step, room);
    largest(histogram(room))
}

// The shifted bytes under a step. Where a scan would give a blank, `out` stays.
pub fn write_shifted(stored: &[u8], offset: u8, step: u8, out: &mut [u8])
    ensures { out.new ≡ sector_shifted offset stored.now step out.old }
{
    if stored.len() > 512 || out.len() != stored.len() {
        return;
    }
    for (i, b) in stored.iter().enumerate() {
        out[i] = shifted(*b, offset, i, step);
    }
}

fn fit_of(stored: &[u8], offset: u8, room: &mut [u8]) -> Fit
    requires { (length stored.now ≤ 512) × (length room.old ≡ length stored.now) }
    ensures { result ≡ fit_of offset stored.now }
{
    let counts = modal_counts(stored, offset, room);
    table_fit(counts, stored.len())
}

// The modal counts of the 256 steps. `room` takes the shifted bytes of one step after the other.
fn modal_counts(stored: &[u8], offset: u8, room: &mut [u8]) -> [u16; 256]
    requires { (length stored.now ≤ 512) × (length room.old ≡ length stored.now) }
    ensures { result ≡ each (modal_at offset stored.now) 256 }
{
    let mut counts = [0u16; 256];
    for step in 0..256 {
        counts[step] = modal_count(stored, offset, step as u8, room);
    }
    counts
}

fn histogram(bytes: &[u8]) -> [u16; 256]
    requires { length bytes.now ≤ 512 }
    ensures { Tallies 256 result bytes.now }
{
    let mut hist = [0u16; 256];
    for x in bytes {
        hist[usize::from(*x)] += 1;
    }
    hist
}

fn largest(hist: [u16; 256]) -> u16
    ensures { result ≡ greatest (λ v. slice_index hist v) 256 }
{
    hist.iter().fold(0, |most, n| most.max(*n))
}
