// The first look of the row-count test: the pair (n, 0) with four live slots behind it, before the sweep. `NeverPassedOver` says that no
// test that would pass ends here.
ghost use Rattle.std.specs.Prelude.{◌≡◌, ◌+◌, ◌-◌, ◌<◌, ◌≤◌, min, false, length};
ghost use Rattle.slots.specs.Plain.{text};
ghost use Rattle.slots.specs.Looks.{is_array, may_count_at, may_count};

use crate::values::{Plain, SLOT_OFFSET_MIN, is_offset, pairs_in};

impl Plain<'_> {
    // Whether the pair and an array behind it stand anywhere before the end, by blocks of 64. By index: the blocks overlap by a byte, and
    // what is left is not of their length.
    pub(crate) fn may_count(&self, n: u8) -> bool
        ensures { result ≡ may_count self.now.end (text self.now) n (min self.now.end (length self.now.bytes.now - 1)) }
    {
        let end = self.end.min(self.bytes.len().saturating_sub(1));
        let mut at: usize = 0;
        while at + 64 <= end {
            if self.block_may_count(at, n) {
                return true;
            }
            at += 64;
        }
        self.part_may_count(at, end, n)
    }

    // The next block of 64 positions: one after the other only where the pair stands in it.
    fn block_may_count(&self, at: usize, n: u8) -> bool
        requires at_in_bounds { at + 64 < length self.now.bytes.now }
        requires at_value { may_count self.now.end (text self.now) n at ≡ false }
        ensures { result ≡ may_count self.now.end (text self.now) n (at + 64) }
    {
        let block = Plain::new(&self.bytes[at..at + 65], self.bv, 64);
        if !block.has_pair(n) {
            return false;
        }
        self.part_may_count(at, at + 64, n)
    }

    // The positions from `from` up to `end`.
    fn part_may_count(&self, from: usize, end: usize, n: u8) -> bool
        requires end_in_bounds { (from ≤ end) × (end ≤ length self.now.bytes.now - 1) }
        requires from_value { may_count self.now.end (text self.now) n from ≡ false }
        ensures { result ≡ may_count self.now.end (text self.now) n end }
    {
        for i in from..end {
            if self.may_count_at(i, n) {
                return true;
            }
        }
        false
    }

    fn may_count_at(&self, i: usize, n: u8) -> bool
        requires { i + 1 < length self.now.bytes.now }
        ensures { result ≡ may_count_at self.now.end (text self.now) n i }
    {
        if !self.count_at(i, n) {
            return false;
        }
        if self.is_array(i + 4) {
            return true;
        }
        self.is_array(i + 6)
    }

    // Whether four live slots stand at a position, before the end. It stops at the fourth: so however long the runs of zeros are, no more
    // than a few looks pass over the same pair.
    fn is_array(&self, at: usize) -> bool
        requires { at ≤ length self.now.bytes.now + 4 }
        ensures { result ≡ is_array self.now.end (text self.now) at }
    {
        if self.end <= at + 1 {
            return false;
        }
        let first = self.pair_at(at);
        if !is_offset(first) {
            return false;
        }
        let mut prev = first;
        let mut live: usize = 1;
        let slots = pairs_in(&self.bytes[at + 2..self.end]);
        for slot in slots {
            let w = self.pair_of(*slot);
            if w != 0 {
                // What is below an offset is below 0xFF0.
                if w < SLOT_OFFSET_MIN {
                    return false;
                }
                if prev <= w {
                    return false;
                }
                if live == 3 {
                    return true;
                }
                prev = w;
                live += 1;
            }
        }
        false
    }
}
