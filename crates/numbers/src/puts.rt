// A number at a place of a buffer: the least byte first, or the greatest.
ghost use Rattle.std.specs.Prelude.{ℕ, ◌≤◌};
ghost use Rattle.lists.specs.Cases.{flag};
ghost use Rattle.numbers.specs.Numbers.{little_bytes, big_bytes};
ghost use Rattle.numbers.specs.Writes.{Wrote};

use crate::bytes::{end_within, put_bytes};

// What is stored in a fixed number of bytes.
pub trait Number {
    ghost width: { ℕ };

    ghost value: { Self → ℕ };

    // The least byte first.
    fn put(self, out: &mut [u8], at: usize) -> usize
        ensures { Wrote out.old at (little_bytes width (value self)) out.new result };

    // The greatest byte first.
    fn put_big(self, out: &mut [u8], at: usize) -> usize
        ensures { Wrote out.old at (big_bytes width (value self)) out.new result };
}

impl Number for bool {
    ghost width = { 1 };

    ghost value = { flag };

    fn put(self, out: &mut [u8], at: usize) -> usize {
        put_low::<1>(out, at, u64::from(self))
    }

    fn put_big(self, out: &mut [u8], at: usize) -> usize {
        put_low_big::<1>(out, at, u64::from(self))
    }
}

impl Number for u8 {
    ghost width = { 1 };

    ghost value = { λ n. n };

    fn put(self, out: &mut [u8], at: usize) -> usize {
        put_low::<1>(out, at, u64::from(self))
    }

    fn put_big(self, out: &mut [u8], at: usize) -> usize {
        put_low_big::<1>(out, at, u64::from(self))
    }
}

impl Number for u16 {
    ghost width = { 2 };

    ghost value = { λ n. n };

    fn put(self, out: &mut [u8], at: usize) -> usize {
        put_low::<2>(out, at, u64::from(self))
    }

    fn put_big(self, out: &mut [u8], at: usize) -> usize {
        put_low_big::<2>(out, at, u64::from(self))
    }
}

impl Number for u32 {
    ghost width = { 4 };

    ghost value = { λ n. n };

    fn put(self, out: &mut [u8], at: usize) -> usize {
        put_low::<4>(out, at, u64::from(self))
    }

    fn put_big(self, out: &mut [u8], at: usize) -> usize {
        put_low_big::<4>(out, at, u64::from(self))
    }
}

impl Number for u64 {
    ghost width = { 8 };

    ghost value = { λ n. n };

    fn put(self, out: &mut [u8], at: usize) -> usize {
        put_low::<8>(out, at, self)
    }

    fn put_big(self, out: &mut [u8], at: usize) -> usize {
        put_low_big::<8>(out, at, self)
    }
}

// The last N bytes of a number: of a table's length one counts, and of a place in a page two. From the ninth on they are zeros.
pub fn put_low<const N: usize>(out: &mut [u8], at: usize, n: u64) -> usize
    ensures { Wrote out.old at (little_bytes N n) out.new result }
{
    let Some(end) = end_within(out, at, N) else {
        return at;
    };
    let k = N.min(8);
    out[at..at + k].copy_from_slice(&n.to_le_bytes()[..k]);
    out[at + k..end].fill(0);
    end
}

// The same, the greatest first.
fn put_low_big<const N: usize>(out: &mut [u8], at: usize, n: u64) -> usize
    requires { N ≤ 8 }
    ensures { Wrote out.old at (big_bytes N n) out.new result }
{
    put_bytes(out, at, &n.to_be_bytes()[8 - N..])
}
