// The pair (n, 0): a row count as a page's fields hold it.
ghost use Rattle.std.specs.Prelude.{◌≡◌, ◌+◌, ◌-◌, ◌<◌, min, ◌&&◌, length, ◌==◌};
ghost use Rattle.lists.specs.Bytes.{plain_of, byte_at};
ghost use Rattle.slots.specs.Plain.{text};
ghost use Rattle.slots.specs.Pairs.{has_pair};

use crate::values::Plain;

// Whether n and 0 stand next to each other, the first of them below the limit.
pub fn has_count(bytes: &[u8], bv: u8, limit: usize, n: u8) -> bool
    ensures { result ≡ has_pair n 0 (plain_of bv bytes.now) (min limit (length bytes.now - 1)) }
{
    Plain::new(bytes, bv, limit).has_pair(n)
}

impl Plain<'_> {
    // The same up to the end. No way out but the end, and each byte's neighbour from a part of its own: the loop then takes many bytes at
    // a time. By index: a fold over the zip of the two parts takes a fifth longer.
    pub(crate) fn has_pair(&self, n: u8) -> bool
        ensures { result ≡ has_pair n 0 (text self.now) (min self.now.end (length self.now.bytes.now - 1)) }
    {
        let length = self.bytes.len();
        if length == 0 {
            return false;
        }
        let next = &self.bytes[1..];
        let mut seen = false;
        for i in 0..self.end.min(length - 1) {
            let here = is_count(self.less(self.bytes[i]), self.less(next[i]), n);
            seen = seen | here;
        }
        seen
    }

    // Whether n and 0 stand at a position.
    pub(crate) fn count_at(&self, i: usize, n: u8) -> bool
        requires { i + 1 < length self.now.bytes.now }
        ensures { result ≡ (byte_at (text self.now) i == n && byte_at (text self.now) (i + 1) == 0) }
    {
        is_count(self.less(self.bytes[i]), self.less(self.bytes[i + 1]), n)
    }
}

fn is_count(a: u8, b: u8, n: u8) -> bool
    ensures { result ≡ (a == n && b == 0) }
{
    a == n && b == 0
}
