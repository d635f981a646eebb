// The row-count test: the scanned directory has the trailer's row count before it.
ghost use Rattle.std.specs.Prelude.{◌≡◌, ◌+◌, ◌≤◌, length};
ghost use Rattle.lists.specs.Bytes.{plain_of};
ghost use Rattle.slots.specs.Plain.{text};
ghost use Rattle.slots.specs.Slots.{counted_back, row_count_matches, page_matches};

use crate::values::Plain;
use answers::Options;

// The test of a page's data less bv, with the stored row count n and T. The first look answers most wrong bv, with no scan.
pub fn trailer_row_count_matches(bytes: &[u8], bv: u8, limit: usize, n: u8, t: u8) -> bool
    ensures { result ≡ row_count_matches limit (plain_of bv bytes.now) n t }
{
    if n < t {
        return false;
    }
    let plain = Plain::new(bytes, bv, limit);
    if !plain.may_count(n) {
        return false;
    }
    let Some(d) = plain.sweep() else {
        return false;
    };
    plain.counted_back(d.start, n, 6) || plain.counted_back(d.start, n, 4)
}

// The test of a whole plain page, which has its row count at 0xFF0. A limit that is out of range answers no.
pub fn page_row_count_matches(plain: &[u8], limit: usize, t: u8) -> bool
    ensures { result ≡ page_matches limit plain.now t }
{
    if plain.len() != 4096 {
        return false;
    }
    if !Options::limit_fits(limit) {
        return false;
    }
    trailer_row_count_matches(plain, 0, limit, plain[0xFF0], t)
}

impl Plain<'_> {
    // Whether n and 0 stand `back` bytes before the array.
    fn counted_back(&self, start: usize, n: u8, back: usize) -> bool
        requires { (start ≤ self.now.end + 2) × (4 ≤ back) × (back ≤ 6) }
        ensures { result ≡ counted_back (text self.now) start n back }
    {
        if start < back + 2 {
            return false;
        }
        self.count_at(start - back, n)
    }
}
