// The rows of a page: each is asked for by its number, the first being 0.
ghost use Rattle.std.specs.Prelude.{◌≡◌, ◌≤◌, IfSome, length};
ghost use Rattle.std.specs.List.{count_by};
ghost use Rattle.slots.specs.Slots.{slot_value};
ghost use Rattle.answers.specs.Answers.{answer_in};
ghost use Rattle.answers.specs.Settings.{directory};
ghost use Rattle.directory.specs.Directory.{Sound};
ghost use Rattle.rows.specs.Rows.{is_kept, rows_at, row_in, start_of, end_of, IsPart, IsRow};
ghost use Rattle.rows.specs.RowAnswers.{rows_in, rows_of, row_of, row_answer_of, row_found_of, rows_counted_of};

use answers::{Options, Refusal};
use directory::{Listed, decide_page, slots_at};
use slots::{pair_at, pair_of};

// Where a row lies in the page.
#[derive(Clone, Copy)]
pub struct Span {
    pub offset: usize,
    pub end: usize,
}

// A row: where it starts, its part of the plaintext, and whether its length was read from the row itself, which it never is.
#[derive(Clone, Copy)]
pub struct Row<'a> {
    pub offset: usize,
    pub bytes: &'a [u8],
    pub exact: bool,
}

// Asking for row r: 1, the parse's refusals, 16, or where it lies.
#[tactic(auto, using(crate::proofs::RowAnswers::asking))]
pub fn row_found(number: u64, plain: &[u8], options: Options, r: usize) -> Result<Span, Refusal>
    ensures { result ≡ row_found_of options.search_limit number plain.now (directory options) r }
{
    let d = decide_page(number, plain, options)?;
    span_in(plain, d.listed, r).ok_or(Refusal::NoSuchRow(r))
}

// How many rows a page has that the parse accepts.
#[tactic(auto, using(crate::proofs::RowAnswers::asking))]
pub fn rows_counted(number: u64, plain: &[u8], options: Options) -> Result<usize, Refusal>
    ensures { result ≡ rows_counted_of options.search_limit number plain.now (directory options) }
{
    let d = decide_page(number, plain, options)?;
    Ok(count_in(plain, d.listed))
}

pub fn row_answer(number: u64, plain: &[u8], options: Options, r: usize) -> Result<(), Refusal>
    ensures { answer_in result ≡ row_answer_of options.search_limit number plain.now (directory options) r }
{
    row_found(number, plain, options, r)?;
    Ok(())
}

// None where the parse refuses the page.
#[tactic(auto, using(crate::proofs::RowAnswers::asking))]
pub fn row_count(plain: &[u8], options: Options) -> usize
    ensures { result ≡ length (rows_of options.search_limit plain.now (directory options)) }
{
    rows_counted(0, plain, options).unwrap_or(0)
}

#[tactic(auto, using(crate::proofs::RowAnswers::asking))]
pub fn row_span(plain: &[u8], options: Options, r: usize) -> Option<Span>
    ensures { result ≡ row_of options.search_limit plain.now (directory options) r }
{
    row_found(0, plain, options, r).ok()
}

// Row r itself: that part of the caller's slice; the empty part at 0 where there is none.
pub fn row_bytes<'a>(plain: &'a [u8], options: Options, r: usize) -> &'a [u8]
    ensures { IsPart plain.entry result (row_of options.search_limit plain.now (directory options) r) }
{
    part_of(plain, row_span(plain, options, r))
}

// The record of row r: the one function over it.
pub fn row_at<'a>(plain: &'a [u8], options: Options, r: usize) -> Row<'a>
    ensures { IsRow plain.entry (row_of options.search_limit plain.now (directory options) r) result }
{
    let span = row_span(plain, options, r);
    Row {
        offset: start_of(span),
        bytes: part_of(plain, span),
        exact: false,
    }
}

// Where a row starts, and where it ends; 0 of none.
pub fn start_of(span: Option<Span>) -> usize
    ensures { result ≡ start_of span }
{
    span.map_or(0, |span| span.offset)
}

pub fn end_of(span: Option<Span>) -> usize
    ensures { result ≡ end_of span }
{
    span.map_or(0, |span| span.end)
}

fn part_of(plain: &[u8], span: Option<Span>) -> &[u8]
    requires { (start_of span ≤ end_of span) × (end_of span ≤ length plain.now) }
    ensures { IsPart plain.entry result span }
{
    let Some(Span { offset, end }) = span else {
        return &plain[0..0];
    };
    &plain[offset..end]
}

// Row r of what is listed.
fn span_in(plain: &[u8], listed: Option<Listed>, r: usize) -> Option<Span>
    requires { IfSome listed (λ l. Sound plain.now l.start l.count) }
    ensures { result ≡ row_in r (rows_in plain.now listed) }
{
    let l = listed?;
    span_at(plain, l.start, l.count, r)
}

// Row r of a directory, whose offsets fall strictly: from its far end they ascend.
fn span_at(plain: &[u8], start: usize, count: usize, r: usize) -> Option<Span>
    requires { Sound plain.now start count }
    ensures { result ≡ row_in r (rows_at plain.now start count) }
{
    let stop = start + 2 * count;
    let mut left = r;
    let mut offset: usize = 0;
    for k in (0..count).rev() {
        let v = pair_at(plain, start + 2 * k);
        if is_kept(start, stop, v) {
            if offset != 0 {
                return Some(Span { offset, end: v });
            }
            if left == 0 {
                offset = v;
            } else {
                left -= 1;
            }
        }
    }
    if offset != 0 {
        return Some(Span { offset, end: 0xFF0 });
    }
    None
}

fn count_in(plain: &[u8], listed: Option<Listed>) -> usize
    requires { IfSome listed (λ l. Sound plain.now l.start l.count) }
    ensures { result ≡ length (rows_in plain.now listed) }
{
    match listed {
        Some(l) => {
            count_kept(
                slots_at(plain, l.start, l.count),
                l.start,
                l.start + 2 * l.count,
            )
        }
        None => 0,
    }
}

fn count_kept(slots: &[[u8; 2]], start: usize, stop: usize) -> usize
    ensures { result ≡ count_by (λ s. is_kept start stop (slot_value s)) slots.now }
{
    slots
        .iter()
        .filter(|slot| is_kept(start, stop, pair_of(**slot)))
        .count()
}

// Whether an offset is live and points past the directory or before it.
#[tactic(auto, unfolding(crate::specs::Rows::is_kept))]
pub fn is_kept(start: usize, stop: usize, v: usize) -> bool
    ensures { result ≡ is_kept start stop v }
{
    v != 0 && (v < start || stop <= v)
}
