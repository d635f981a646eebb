// Parts of a known width, and tables of them: a place that is not used is put whole or not at all. The layouts go by entries, which put it field by field.
ghost use Rattle.std.specs.Prelude.{ℕ, List, [], ◌∷◌};
ghost use Rattle.fields.specs.Fields.{Field, little, Put};
ghost use Rattle.parts.specs.Parts.{fit_size, fit_fields, ground_size, ground_fields, warning_size, warning_fields, bv_fields, place_fields, table_fields, listed_fields};

use crate::entries::Entry;
use crate::{FIT_SIZE, GROUND_SIZE, WARNING_SIZE};
use answers::{Evidence, Table, Warning};
use numbers::{put_low, put_zeros};
use sector::Fit;

// What a table of a layout has an entry for.
pub trait Part {
    // How many bytes it takes.
    ghost SIZE: { ℕ };

    const SIZE: usize;

    ghost fields: { Self → List Field };

    fn put_at(&self, out: &mut [u8], at: usize) -> usize
        ensures { Put out.old at (fields self.now) out.new result };
}

impl Part for Fit {
    ghost SIZE = { fit_size };

    const SIZE: usize = FIT_SIZE;

    ghost fields = { fit_fields };

    fn put_at(&self, out: &mut [u8], at: usize) -> usize {
        <Fit as Entry>::put_at(self, out, at)
    }
}

impl Part for Evidence {
    ghost SIZE = { ground_size };

    const SIZE: usize = GROUND_SIZE;

    ghost fields = { ground_fields };

    fn put_at(&self, out: &mut [u8], at: usize) -> usize {
        <Evidence as Entry>::put_at(self, out, at)
    }
}

impl Part for Warning {
    ghost SIZE = { warning_size };

    const SIZE: usize = WARNING_SIZE;

    ghost fields = { warning_fields };

    fn put_at(&self, out: &mut [u8], at: usize) -> usize {
        <Warning as Entry>::put_at(self, out, at)
    }
}

// A value of bv.
impl Part for u8 {
    ghost SIZE = { 1 };

    const SIZE: usize = 1;

    ghost fields = { bv_fields };

    fn put_at(&self, out: &mut [u8], at: usize) -> usize {
        <u8 as Entry>::put_at(self, out, at)
    }
}

// A place that is not used is zeros.
impl<T: Part> Part for Option<T> {
    ghost SIZE = { T.SIZE };

    const SIZE: usize = T::SIZE;

    ghost fields = { place_fields T.fields (little T.SIZE 0 ∷ []) };

    fn put_at(&self, out: &mut [u8], at: usize) -> usize {
        match self {
            Some(x) => x.put_at(out, at),
            None => put_zeros(out, at, T::SIZE),
        }
    }
}

pub fn put_all<T: Part, const N: usize>(out: &mut [u8], at: usize, items: &[T; N]) -> usize
    ensures { Put out.old at (table_fields T.fields (little T.SIZE 0 ∷ []) items.now N) out.new result }
{
    let mut next = at;
    for x in items {
        next = x.put_at(out, next);
    }
    next
}

// How many values a list in a table has, and the places.
pub fn put_list<T: Part, const N: usize>(out: &mut [u8], at: usize, list: &Table<T, N>) -> usize
    ensures { Put out.old at (listed_fields T.fields (little T.SIZE 0 ∷ []) list.now) out.new result }
{
    let at = put_low::<1>(out, at, list.len as u64);
    put_all(out, at, &list.items)
}
