// The scan, in one pass from the limit down to 0: each position takes a few steps, however long the runs are.
ghost use Rattle.std.specs.Prelude.{◌≡◌, ◌+◌, ◌<◌, ◌≤◌, length, nat_lt};
ghost use Rattle.lists.specs.Cases.{pick};
ghost use Rattle.lists.specs.Bytes.{plain_of};
ghost use Rattle.slots.specs.Plain.{text};
ghost use Rattle.slots.specs.Slots.{words_from, stronger, directory_from, scanned_directory};
ghost use Rattle.slots.specs.Sweep.{no_tail, extended, tail_of, tail_scan, stronger_kept};

use crate::values::{Plain, is_offset};

// What a scan finds: where its array starts, its slots without trailing zeros, and how many of them are live. It ends at start + 2 * slots.
#[derive(Clone, Copy)]
pub struct Scan {
    pub start: usize,
    pub slots: usize,
    pub live: usize,
}

// What is known of the pairs from a position on: the first that is not zero, the zero pairs before it, and the slots and live slots of
// the run that it starts. Where it is no offset, or there is none, the value is 0xFF0, which no offset is above.
#[derive(Clone, Copy)]
pub(crate) struct Tail {
    value: usize,
    gap: usize,
    slots: usize,
    live: usize,
}

// The best directory of all starts below the limit, if it has four live slots.
pub fn scanned_directory(bytes: &[u8], bv: u8, limit: usize) -> Option<Scan>
    ensures { result ≡ scanned_directory limit (plain_of bv bytes.now) }
{
    Plain::new(bytes, bv, limit).sweep()
}

impl Plain<'_> {
    // Two positions a turn: the tails of even and of odd positions stay in their own places. The last position has no pair. By index: in
    // pairs from the far end, which no adapter gives.
    pub(crate) fn sweep(&self) -> Option<Scan>
        ensures { result ≡ scanned_directory self.now.end (text self.now) }
    {
        let mut near = no_tail();
        let mut far = no_tail();
        let mut best = Scan {
            start: 0,
            slots: 0,
            live: 0,
        };
        if self.end == 0 {
            return directory_of(best);
        }
        let mut s = self.end - 1;
        while 1 < s {
            far = self.tail_at(s - 1, far);
            best = kept(s - 1, far, best);
            near = self.tail_at(s - 2, near);
            best = kept(s - 2, near, best);
            s -= 2;
        }
        if s == 1 {
            return directory_of(kept(0, self.tail_at(0, far), best));
        }
        directory_of(best)
    }

    // The tail at s from the tail two bytes on.
    fn tail_at(&self, s: usize, next: Tail) -> Tail
        requires s_in_bounds { s + 1 < self.now.end }
        requires next_value { next ≡ tail_of (words_from self.now.end (text self.now) (s + 2)) }
        ensures { result ≡ tail_of (words_from self.now.end (text self.now) s) }
    {
        extend(self.pair_at(s), next)
    }
}

#[tactic(auto, unfolding(crate::specs::Slots::directory_from))]
fn directory_of(best: Scan) -> Option<Scan>
    ensures { result ≡ directory_from best }
{
    (4 <= best.live).then_some(best)
}

fn no_tail() -> Tail
    ensures { result ≡ no_tail }
{
    Tail {
        value: 0xFF0,
        gap: 0,
        slots: 0,
        live: 0,
    }
}

// The tail with one more pair before it.
fn extend(w: usize, t: Tail) -> Tail
    requires { (t.gap + t.slots < 9223372036854775808) × (t.live < 9223372036854775808) }
    ensures { result ≡ extended w t }
{
    let Tail {
        value,
        gap,
        slots,
        live,
    } = t;
    if w == 0 {
        return Tail { gap: gap + 1, ..t };
    }
    if !is_offset(w) {
        return no_tail();
    }
    Tail {
        value: w,
        gap: 0,
        slots: carried(w, value, gap + slots) + 1,
        live: carried(w, value, live) + 1,
    }
}

// What a tail of this value adds to a run with w before it. It chooses a number, not a way: which comes is a toss-up on some pages.
fn carried(w: usize, value: usize, n: usize) -> usize
    ensures { (result ≡ pick (nat_lt value w) n 0) × (result ≤ n) }
{
    if value < w { n } else { 0 }
}

// The better of the scan from s and the best of the later ones. One zero pair before the array is skipped, and a scan of fewer than four
// live slots is left out at once: most starts end there.
#[tactic(auto, using(crate::proofs::Sweeps::keeping))]
fn kept(s: usize, t: Tail, best: Scan) -> Scan
    requires { s < 9223372036854775808 }
    ensures { result ≡ stronger_kept (tail_scan s t) best }
{
    let Tail {
        gap,
        slots,
        live,
        ..
    } = t;
    if live < 4 {
        return best;
    }
    if 1 < gap {
        return best;
    }
    let scan = Scan {
        start: s + 2 * gap,
        slots,
        live,
    };
    better(scan, best)
}

// The better of two scans, the earlier one, b, where they are as good.
#[tactic(auto, unfolding(crate::specs::Slots::stronger))]
fn better(b: Scan, c: Scan) -> Scan
    ensures { result ≡ stronger b c }
{
    if b.live < c.live || b.live == c.live && b.slots < c.slots {
        c
    } else {
        b
    }
}
