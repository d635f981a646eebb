// One part at a place of a buffer.
ghost use Rattle.std.specs.Prelude.{List};
ghost use Rattle.fields.specs.Fields.{Field, Put};
ghost use Rattle.parts.specs.Parts.{answer_fields, fit_fields, no_fit, ground_fields, no_ground, warning_fields, no_warning, bv_fields, no_bv, place_fields};

use crate::WARNING_SIZE;
use answers::{Evidence, Refusal, Values, Warning};
use numbers::{Number, put_low, put_zeros};
use sector::Fit;

// What a table of a layout has an entry for.
pub trait Entry {
    ghost fields: { Self → List Field };

    // Those of a place that is not used.
    ghost blank: { List Field };

    fn put_at(&self, out: &mut [u8], at: usize) -> usize
        ensures { Put out.old at (fields self.now) out.new result };

    fn put_blank(out: &mut [u8], at: usize) -> usize
        ensures { Put out.old at blank out.new result };
}

impl Entry for Fit {
    ghost fields = { fit_fields };

    ghost blank = { no_fit };

    fn put_at(&self, out: &mut [u8], at: usize) -> usize {
        let at = self.step.put(out, at);
        let at = self.peak.put(out, at);
        let at = self.runner_up.put(out, at);
        let at = self.exact.put(out, at);
        self.tied.put(out, at)
    }

    fn put_blank(out: &mut [u8], at: usize) -> usize {
        let at = put_low::<1>(out, at, 0);
        let at = put_low::<2>(out, at, 0);
        let at = put_low::<2>(out, at, 0);
        let at = put_low::<1>(out, at, 0);
        put_low::<2>(out, at, 0)
    }
}

impl Entry for Evidence {
    ghost fields = { ground_fields };

    ghost blank = { no_ground };

    fn put_at(&self, out: &mut [u8], at: usize) -> usize {
        let values = self.values();
        let at = self.number().put(out, at);
        let at = put_low::<2>(out, at, values.first);
        put_low::<2>(out, at, values.second)
    }

    fn put_blank(out: &mut [u8], at: usize) -> usize {
        let at = put_low::<1>(out, at, 0);
        let at = put_low::<2>(out, at, 0);
        put_low::<2>(out, at, 0)
    }
}

impl Entry for Warning {
    ghost fields = { warning_fields };

    ghost blank = { no_warning };

    fn put_at(&self, out: &mut [u8], at: usize) -> usize {
        let values = self.kind.values();
        let at = self.kind.number().put(out, at);
        let at = self.page.put(out, at);
        let at = values.first.put(out, at);
        let at = values.second.put(out, at);
        values.third.put(out, at)
    }

    // At once where there is room: a decoding has ten places.
    fn put_blank(out: &mut [u8], at: usize) -> usize {
        let end = put_zeros(out, at, WARNING_SIZE);
        if end != at {
            return end;
        }
        put_no_warning(out, at)
    }
}

// Its fields, one behind the other. Inlined, it keeps the tests of a whole layout from folding.
#[inline(never)]
fn put_no_warning(out: &mut [u8], at: usize) -> usize
    ensures { Put out.old at no_warning out.new result }
{
    let at = put_low::<1>(out, at, 0);
    let at = put_low::<8>(out, at, 0);
    let at = put_low::<8>(out, at, 0);
    let at = put_low::<8>(out, at, 0);
    put_low::<8>(out, at, 0)
}

// A value of bv.
impl Entry for u8 {
    ghost fields = { bv_fields };

    ghost blank = { no_bv };

    fn put_at(&self, out: &mut [u8], at: usize) -> usize {
        self.put(out, at)
    }

    fn put_blank(out: &mut [u8], at: usize) -> usize {
        put_low::<1>(out, at, 0)
    }
}

// A place of a table, which may not be used.
impl<T: Entry> Entry for Option<T> {
    ghost fields = { place_fields T.fields T.blank };

    ghost blank = { T.blank };

    fn put_at(&self, out: &mut [u8], at: usize) -> usize {
        match self {
            Some(x) => x.put_at(out, at),
            None => T::put_blank(out, at),
        }
    }

    fn put_blank(out: &mut [u8], at: usize) -> usize {
        T::put_blank(out, at)
    }
}

// What stands beside an answer that is no refusal.
const NO_VALUES: Values = Values {
    count: 0,
    first: 0,
    second: 0,
    third: 0,
    fourth: 0,
};

pub fn put_answer(out: &mut [u8], at: usize, x: Option<Refusal>) -> usize
    ensures { Put out.old at (answer_fields x) out.new result }
{
    let number = x.map_or(0, Refusal::number);
    let values = x.map_or(NO_VALUES, Refusal::values);
    let head = u64::from(number) + 256 * u64::from(values.count);
    let at = head.put(out, at);
    let at = values.first.put(out, at);
    let at = values.second.put(out, at);
    let at = values.third.put(out, at);
    values.fourth.put(out, at)
}
