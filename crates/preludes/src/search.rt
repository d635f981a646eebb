// The prelude search: fields that hold the row count, with a slot array behind them.
ghost use Rattle.std.specs.Prelude.{◌≡◌, ◌+◌, ◌-◌, ◌*◌, ◌<◌, ◌≤◌, min, length};
ghost use Rattle.lists.specs.Bytes.{pair_at};
ghost use Rattle.slots.specs.Slots.{slots_at};
ghost use Rattle.preludes.specs.Preludes.{data_end, declared_slots, run_of, whole, longer, first_noted, noted, gap_noted, prelude_of};
ghost use Rattle.preludes.specs.Passes.{Passed, NextField};

use slots::{SLOT_OFFSET_MIN, has_count, is_offset, pair_at, pair_of, pairs_in};

// How many slots were read at a place, and how many of them are live.
#[derive(Clone, Copy)]
pub(crate) struct Run {
    taken: usize,
    live: usize,
}

// What the search finds: nothing; the longest array that breaks off, its slots and the offset of the pair that failed; the one start;
// two that differ.
#[derive(Clone, Copy)]
pub enum Prelude {
    Missing,
    Truncated { found: usize, stop: usize },
    One(usize),
    Several,
}

// The search below the limit for the row count n.
pub fn prelude_candidates(plain: &[u8], limit: usize, n: u8) -> Prelude
    ensures { result ≡ prelude_of limit plain.now n }
{
    Search::new(plain, limit, n).candidates()
}

// What is searched: a plain page, the row count that a field holds, and where the fields end.
#[derive(Clone, Copy)]
struct Search<'a> {
    plain: &'a [u8],
    n: u8,
    end: usize,
    ghost inside: { end ≤ data_end plain.now - 5 },
}

impl<'a> Search<'a> {
    // The fields below the limit that have a pair of slots behind them: the others show nothing.
    fn new(plain: &'a [u8], limit: usize, n: u8) -> Self
        ensures same { (result.plain.now ≡ plain.now) × (result.n ≡ n) }
        ensures end { result.end ≡ min limit (data_end plain.now - 5) }
    {
        Self {
            plain,
            n,
            end: limit.min(data_end(plain).saturating_sub(5)),
        }
    }

    // Fields ascending, gap 4 before 6, left once a second start is seen. By hand: each turn asks for the next field.
    fn candidates(&self) -> Prelude
        ensures { result ≡ prelude_of self.now.end self.now.plain.now self.now.n }
    {
        let mut seen = Prelude::Missing;
        let mut field = self.next_field(0);
        'fields: while field < self.end {
            for k in 0..2 {
                seen = self.note_gap(field, 4 + 2 * k, seen);
                if matches!(seen, Prelude::Several) {
                    break 'fields;
                }
            }
            field = self.next_field(field + 1);
        }
        seen
    }

    // The next field from `from` on that holds n, or the end.
    fn next_field(&self, from: usize) -> usize
        requires { from ≤ self.now.end }
        ensures { NextField self.now.plain.now self.now.n from self.now.end result }
    {
        for at in self.pass_blocks(from)..self.end {
            if pair_at(self.plain, at) == usize::from(self.n) {
                return at;
            }
        }
        self.end
    }

    // Past blocks of 64 fields of which none holds n, as most are. By index: the blocks overlap by a byte.
    fn pass_blocks(&self, from: usize) -> usize
        requires { from ≤ self.now.end }
        ensures { Passed self.now.plain.now self.now.n from self.now.end result }
    {
        let mut at = from;
        while at + 64 <= self.end {
            let stop = at + 65;
            if has_count(&self.plain[at..stop], 0, 64, self.n) {
                return at;
            }
            at += 64;
        }
        at
    }

    // What the slots at a field's gap, 4 or 6, make of what was seen before them.
    fn note_gap(&self, field: usize, gap: usize, seen: Prelude) -> Prelude
        requires { (field < self.now.end) × (gap ≤ 6) }
        ensures { result ≡ gap_noted self.now.plain.now self.now.n field gap seen }
    {
        if gap != 4 && pair_at(self.plain, field + 4) != 0 {
            return seen;
        }
        let start = field + gap;
        note(seen, self.n, start, self.declared_run(start))
    }

    fn declared_run(&self, start: usize) -> Run
        requires { start < 65536 }
        ensures { result ≡ run_of (declared_slots self.now.plain.now self.now.n start) }
    {
        run_at(self.plain, self.declared_end(start), start)
    }

    // Where the slots of a prelude end: n of them at most, and none past the data.
    fn declared_end(&self, start: usize) -> usize
        requires { start < 65536 }
        ensures { result ≡ min (start + 2 * self.now.n) (data_end self.now.plain.now) }
    {
        data_end(self.plain).min(start + 2 * usize::from(self.n))
    }
}

fn data_end(plain: &[u8]) -> usize
    ensures { result ≡ data_end plain.now }
{
    plain.len().min(0xFF0)
}

// The slots at a position before an end: an offset, then strictly falling offsets and zeros.
fn run_at(plain: &[u8], end: usize, at: usize) -> Run
    requires { (end ≤ length plain.now) × (end ≤ 4096) × (at < 65536) }
    ensures { result ≡ run_of (slots_at end plain.now at) }
{
    if end <= at + 1 {
        return Run { taken: 0, live: 0 };
    }
    let first = pair_at(plain, at);
    if !is_offset(first) {
        return Run { taken: 0, live: 0 };
    }
    let mut prev = first;
    let mut live: usize = 1;
    let slots = pairs_in(&plain[at..end]);
    for k in 1..slots.len() {
        let w = pair_of(slots[k]);
        if w != 0 {
            // What is below an offset is below 0xFF0.
            if w < SLOT_OFFSET_MIN {
                return Run { taken: k, live };
            }
            if prev <= w {
                return Run { taken: k, live };
            }
            prev = w;
            live += 1;
        }
    }
    Run {
        taken: slots.len(),
        live,
    }
}

// What a run at `start` makes of what was seen before it.
fn note(seen: Prelude, n: u8, start: usize, run: Run) -> Prelude
    requires { (start < 65536) × (run.taken < 65536) }
    ensures { result ≡ noted n start run seen }
{
    match seen {
        Prelude::Missing => note_first(seen, 0, n, start, run),
        Prelude::Truncated { found, .. } => note_first(seen, found, n, start, run),
        Prelude::One(s) => {
            if start == s {
                return Prelude::One(s);
            }
            if is_whole(n, run) {
                Prelude::Several
            } else {
                Prelude::One(s)
            }
        }
        Prelude::Several => Prelude::Several,
    }
}

fn note_first(seen: Prelude, found: usize, n: u8, start: usize, run: Run) -> Prelude
    requires { (start < 65536) × (run.taken < 65536) }
    ensures { result ≡ first_noted n start run found seen }
{
    if is_whole(n, run) {
        return Prelude::One(start);
    }
    if is_longer(found, run) {
        return Prelude::Truncated {
            found: run.taken,
            stop: start + 2 * run.taken,
        };
    }
    seen
}

// All n slots, the first of them live.
#[tactic(auto, unfolding(crate::specs::Preludes::whole))]
fn is_whole(n: u8, run: Run) -> bool
    ensures { result ≡ whole n run }
{
    1 <= run.live && run.taken == usize::from(n)
}

#[tactic(auto, using(crate::proofs::Fields::keeping))]
fn is_longer(found: usize, run: Run) -> bool
    ensures { result ≡ longer found run }
{
    if run.live < 4 {
        return false;
    }
    found < run.taken
}
