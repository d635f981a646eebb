// A number of rows, a row and all rows.
ghost use Rattle.std.specs.Prelude.{◌+◌, ◌≤◌, IfSome, length};
ghost use Rattle.numbers.specs.Writes.{Wrote};
ghost use Rattle.fields.specs.Fields.{layout_bytes};
ghost use Rattle.answers.specs.Settings.{directory};
ghost use Rattle.directory.specs.Directory.{Sound};
ghost use Rattle.rows.specs.Rows.{rows_at};
ghost use Rattle.rows.specs.RowAnswers.{rows_in};
ghost use Rattle.parts.specs.Parts.{slots_size};
ghost use Rattle.row_layout.specs.RowLayouts.{row_count_bytes, row_bytes_of, list_fields, page_rows_bytes};
ghost use Rattle.row_layout.specs.FromPage.{StartsPut};

use answers::{Options, Refusal};
use directory::{Listed, decide_page, slots_at};
use numbers::{put_low, put_zeros};
use parts::{ANSWER_SIZE, SLOTS_SIZE, put_answer};
use rows::{Span, end_of, is_kept, start_of};
use slots::pair_of;

pub const ROW_COUNT_SIZE: usize = ANSWER_SIZE + 2;

pub const ROW_SIZE: usize = ANSWER_SIZE + 4;

const LIST_SIZE: usize = 2 + SLOTS_SIZE;

pub const ROWS_SIZE: usize = ANSWER_SIZE + LIST_SIZE;

pub fn write_row_count(out: &mut [u8], x: Option<Refusal>, n: usize) -> usize
    ensures { Wrote out.old 0 (row_count_bytes x n) out.new result }
{
    if out.len() < ROW_COUNT_SIZE {
        return 0;
    }
    let at = put_answer(out, 0, x);
    put_low::<2>(out, at, n as u64)
}

// Where a row starts and where it ends.
pub fn write_row(out: &mut [u8], x: Option<Refusal>, span: Option<Span>) -> usize
    ensures { Wrote out.old 0 (row_bytes_of x span) out.new result }
{
    if out.len() < ROW_SIZE {
        return 0;
    }
    let start = start_of(span);
    let end = end_of(span);
    let at = put_answer(out, 0, x);
    let at = put_low::<2>(out, at, start as u64);
    put_low::<2>(out, at, end as u64)
}

// How many rows, and where each starts, straight from the page.
pub fn write_rows(out: &mut [u8], number: u64, plain: &[u8], options: Options) -> usize
    ensures { Wrote out.old 0 (page_rows_bytes options.search_limit number plain.now (directory options))
        out.new result }
{
    if out.len() < ROWS_SIZE {
        return 0;
    }
    match decide_page(number, plain, options) {
        Ok(d) => {
            let at = put_answer(out, 0, None);
            put_listed(out, at, plain, d.listed)
        }
        Err(refusal) => {
            let at = put_answer(out, 0, Some(refusal));
            put_listed(out, at, plain, None)
        }
    }
}

// Where none is listed there are no rows.
fn put_listed(out: &mut [u8], at: usize, plain: &[u8], listed: Option<Listed>) -> usize
    requires { IfSome listed (λ l. Sound plain.now l.start l.count × (l.count ≤ 1024)) }
    ensures { Wrote out.old at (layout_bytes (list_fields (rows_in plain.now listed))) out.new result }
{
    match listed {
        Some(l) => put_rows(out, at, plain, l.start, l.count),
        None => put_zeros(out, at, LIST_SIZE),
    }
}

// How many there are is known behind the last of them, and then put before the first.
fn put_rows(out: &mut [u8], at: usize, plain: &[u8], start: usize, count: usize) -> usize
    requires { Sound plain.now start count × (count ≤ 1024) }
    ensures { Wrote out.old at (layout_bytes (list_fields (rows_at plain.now start count))) out.new result }
{
    if out.len() < LIST_SIZE {
        return at;
    }
    if out.len() - LIST_SIZE < at {
        return at;
    }
    let first = at + 2;
    let rows = put_starts(out, first, plain, start, count);
    put_zeros(out, first + 2 * rows, SLOTS_SIZE - 2 * rows);
    put_low::<2>(out, at, rows as u64);
    at + LIST_SIZE
}

// From the directory's far end the kept offsets ascend. It returns how many they are.
fn put_starts(out: &mut [u8], at: usize, plain: &[u8], start: usize, count: usize) -> usize
    requires { Sound plain.now start count × (count ≤ 1024) × (at + slots_size ≤ length out.old) }
    ensures { StartsPut (rows_at plain.now start count) out.old at out.new result }
{
    let stop = start + 2 * count;
    let mut rows: usize = 0;
    let mut next = at;
    let slots = slots_at(plain, start, count);
    for k in (0..slots.len()).rev() {
        let v = pair_of(slots[k]);
        if is_kept(start, stop, v) {
            next = put_low::<2>(out, next, v as u64);
            rows += 1;
        }
    }
    rows
}
