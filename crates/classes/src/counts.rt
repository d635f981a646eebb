// The modal counts of the 256 steps: all of them up to 255 from rings, and those that reach it by a histogram.
ghost use Rattle.std.specs.Prelude.{◌≡◌, ◌≤◌, ◌<◌, length};
ghost use Rattle.lists.specs.Pieces.{each};
ghost use Rattle.sector.specs.Fit.{modal_at};
ghost use Rattle.rings.specs.Class.{cap};
ghost use Rattle.classes.specs.Engine.{engine_at};
ghost use Rattle.classes.specs.Steps.{Sixteens, Fills, folded_for, step_peak};

// `room` takes the shifted bytes of a step that is counted again.
pub(crate) fn modal_counts(stored: &[u8], offset: u8, room: &mut [u8]) -> [u16; 256]
    requires { Sixteens stored.now × (length room.old ≡ length stored.now) }
    ensures { result ≡ each (modal_at offset stored.now) 256 }
{
    let capped = capped_counts(stored, offset);
    let mut counts = [0u16; 256];
    for step in 0..256 {
        counts[step] = recount(capped[step], stored, offset, step as u8, room);
    }
    counts
}

// A count that shows 255 may be more.
fn recount(capped: u8, stored: &[u8], offset: u8, step: u8, room: &mut [u8]) -> u16
    requires { (length stored.now ≤ 512) × (length room.old ≡ length stored.now) × (capped ≡ cap (modal_at offset stored.now step)) }
    ensures { result ≡ modal_at offset stored.now step }
{
    if capped < 255 {
        return u16::from(capped);
    }
    sector::modal_count(stored, offset, step, room)
}

// The modal counts, which stop at 255. Those of the steps m, m + 16, m + 32 and so on come from one counting of the bytes.
fn capped_counts(stored: &[u8], offset: u8) -> [u8; 256]
    ensures { result ≡ each (engine_at offset stored.now) 256 }
{
    let mut sixteen = table();
    let mut twice = table();
    let mut eight = table();
    let mut counts = [0u8; 256];
    for m in 0..16 {
        rings::tally(stored, offset, (m * 16) as u8, &mut sixteen);
        rings::double(&sixteen, &mut twice);
        count_eight(&sixteen, &twice, m, &mut eight, &mut counts);
        count_eight(&sixteen, &twice, m + 16, &mut eight, &mut counts);
    }
    counts
}

// Room for rings. The contract gives its length alone: what stands there is written over.
fn table() -> [u8; 4096]
    ensures { length result ≡ 4096 }
{
    [0u8; 4096]
}

// The steps s, s + 32, s + 64 and so on, from one folding of the sixteen rings.
fn count_eight(
    sixteen: &[u8; 4096],
    twice: &[u8; 4096],
    s: usize,
    eight: &mut [u8],
    counts: &mut [u8],
)
    requires { (s < 32) × (length eight.old ≡ 4096) × (length counts.old ≡ 256) }
    ensures eight_len { length eight.new ≡ 4096 }
    ensures fills { Fills (step_peak (folded_for sixteen.now twice.now s)) 32 s counts.old counts.new }
{
    rings::fold(sixteen, twice, (s * 8) as u8, eight);
    count_four(eight, s, counts);
    count_four(eight, s + 32, counts);
}

// The steps s, s + 64, s + 128 and s + 192.
fn count_four(eight: &[u8], s: usize, counts: &mut [u8])
    requires { (s < 64) × (length eight.now ≡ 4096) × (length counts.old ≡ 256) }
    ensures { Fills (step_peak eight.now) 64 s counts.old counts.new }
{
    let peaks = rings::peaks(eight, s as u8);
    counts[s] = peaks.a;
    counts[s + 64] = peaks.b;
    counts[s + 128] = peaks.c;
    counts[s + 192] = peaks.d;
}
