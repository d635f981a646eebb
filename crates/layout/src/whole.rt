// A whole answer at the front of a lent buffer.
ghost use Rattle.std.specs.Prelude.{◌≡◌, ℕ, ◌+◌, ◌≤◌, List};
ghost use Rattle.numbers.specs.Writes.{Wrote};
ghost use Rattle.fields.specs.Fields.{Field, size_of, layout_bytes, Put};
ghost use Rattle.parts.specs.Parts.{answer_size};
ghost use Rattle.layout.specs.Layouts.{told_fields};
ghost use Rattle.layout.specs.Sizes.{told-size};

use answers::Refusal;
use numbers::put_zeros;
use parts::{ANSWER_SIZE, put_answer};

// A whole answer.
pub trait Layout {
    // How many bytes it takes.
    ghost SIZE: { ℕ };

    const SIZE: usize;

    ghost fields: { Self → List Field };

    fn put(&self, out: &mut [u8], at: usize) -> usize
        ensures { Put out.old at (fields self.now) out.new result };

    // Whatever it holds.
    ghost sized: { (x : Self) → size_of (fields x) ≡ SIZE };
}

// What stands behind the answer part.
pub trait Record {
    ghost SIZE: { ℕ };

    const SIZE: usize;

    ghost fields: { Self → List Field };

    fn put(&self, out: &mut [u8], at: usize) -> usize
        ensures { Put out.old at (fields self.now) out.new result };

    ghost sized: { (x : Self) → size_of (fields x) ≡ SIZE };

    // With the answer part it is still a size.
    ghost small: { SIZE ≤ 4096 };
}

// Beside a refusal stand zeros.
impl<T: Record> Layout for Result<T, Refusal> {
    ghost SIZE = { answer_size + T.SIZE };

    const SIZE: usize = ANSWER_SIZE + T::SIZE;

    ghost fields = { told_fields T.fields T.SIZE };

    ghost sized = { told-size T.fields T.SIZE T.sized };

    fn put(&self, out: &mut [u8], at: usize) -> usize {
        match self {
            Ok(x) => {
                let at = put_answer(out, at, None);
                x.put(out, at)
            }
            Err(r) => {
                let at = put_answer(out, at, Some(*r));
                put_zeros(out, at, T::SIZE)
            }
        }
    }
}

// How many bytes were written: a buffer that has no room for the layout stays as it is, with 0.
pub fn write<T: Layout>(out: &mut [u8], x: &T) -> usize
    ensures { Wrote out.old 0 (layout_bytes (T.fields x.now)) out.new result }
{
    if out.len() < T::SIZE {
        return 0;
    }
    x.put(out, 0)
}
