// Tables of parts, entry behind entry.
ghost use Rattle.fields.specs.Fields.{Put};
ghost use Rattle.parts.specs.Parts.{table_fields, listed_fields};

use crate::entries::Entry;
use answers::Table;
use numbers::put_low;

pub fn put_entries<T: Entry, const N: usize>(out: &mut [u8], at: usize, items: &[T; N]) -> usize
    ensures { Put out.old at (table_fields T.fields T.blank items.now N) out.new result }
{
    let mut next = at;
    for x in items {
        next = x.put_at(out, next);
    }
    next
}

// How many values a list in a table has, and the places.
pub fn put_entry_list<T: Entry, const N: usize>(
    out: &mut [u8],
    at: usize,
    list: &Table<T, N>,
) -> usize
    ensures { Put out.old at (listed_fields T.fields T.blank list.now) out.new result }
{
    let at = put_low::<1>(out, at, list.len as u64);
    put_entries(out, at, &list.items)
}
