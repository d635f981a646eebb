// The layout of include/lumeviqo.h for a parse, written as those of `layout` are. Its parts are put straight from the page, and no table stands in
// between: whoever calls may be short of stack.
#![tactic(auto)]

ghost use Rattle.std.specs.Prelude.{◌≡◌, ◌+◌, ◌*◌, ◌≤◌, true, IfSome, length};
ghost use Rattle.numbers.specs.Writes.{Wrote};
ghost use Rattle.fields.specs.Fields.{layout_bytes, Put};
ghost use Rattle.parts.specs.Parts.{slots_size};
ghost use Rattle.answers.specs.Settings.{directory};
ghost use Rattle.directory.specs.Directory.{Sound};
ghost use Rattle.slotted.specs.Parses.{parsed_of};
ghost use Rattle.parse_layout.specs.ParseLayouts.{parse_bytes};
ghost use Rattle.parse_layout.specs.FromPage.{listed_fields, found_fields, listed_or_zeros, padded_slots, given_fields};

use answers::{Options, Table, Warning};
use directory::Listed;
use numbers::{Number, put_bytes, put_low, put_zeros};
use parts::{ANSWER_SIZE, SLOTS_SIZE, WARNING_SIZE, put_answer, put_entries};
use slotted::{Located, locate};

const DIRECTORY_SIZE: usize = 10 + SLOTS_SIZE;

pub const PARSE_SIZE: usize = ANSWER_SIZE + DIRECTORY_SIZE + 2 + 3 * WARNING_SIZE;

// The answer part, the directory, its slots, how many warnings, three places: a parse has no more.
pub fn write_parse(out: &mut [u8], number: u64, plain: &[u8], options: Options) -> usize
    ensures { Wrote out.old 0 (parse_bytes (parsed_of options.search_limit number plain.now (directory options)))
        out.new result }
{
    if out.len() < PARSE_SIZE {
        return 0;
    }
    let located = locate(number, plain, options);
    let at = put_answer(out, 0, located.err());
    // Beside a refusal stands nothing: zeros.
    let l = located.unwrap_or(Located {
        listed: None,
        warnings: Table::none(),
    });
    let at = put_directory(out, at, plain, l.listed);
    put_given(out, at, l.warnings)
}

// The directory with its slots, or zeros: all of it, or nothing.
fn put_directory(out: &mut [u8], at: usize, plain: &[u8], listed: Option<Listed>) -> usize
    requires { IfSome listed (λ l. Sound plain.now l.start l.count × (l.count ≤ 1024)) }
    ensures { Wrote out.old at (layout_bytes (listed_or_zeros plain.now listed)) out.new result }
{
    match listed {
        Some(l) => put_found(out, at, plain, l),
        None => put_zeros(out, at, DIRECTORY_SIZE),
    }
}

fn put_found(out: &mut [u8], at: usize, plain: &[u8], l: Listed) -> usize
    requires { (l.start + 2 * l.count ≤ length plain.now) × (l.count ≤ 1024) }
    ensures { Wrote out.old at (layout_bytes (found_fields plain.now true l)) out.new result }
{
    if out.len() < DIRECTORY_SIZE {
        return at;
    }
    if out.len() - DIRECTORY_SIZE < at {
        return at;
    }
    let start = l.start;
    let end = start + 2 * l.count;
    let at = put_listed(out, at, l, end);
    put_slots(out, at, &plain[start..end])
}

fn put_listed(out: &mut [u8], at: usize, l: Listed, end: usize) -> usize
    requires { end ≡ l.start + 2 * l.count }
    ensures { Put out.old at (listed_fields true l) out.new result }
{
    let is_declared = l.declared.is_some();
    let declared = l.declared.unwrap_or(0);
    let at = true.put(out, at);
    let at = put_low::<2>(out, at, l.start as u64);
    let at = put_low::<2>(out, at, end as u64);
    let at = put_low::<2>(out, at, l.count as u64);
    let at = is_declared.put(out, at);
    put_low::<2>(out, at, declared as u64)
}

// In the page a slot stands as in the layout, two bytes with the least first, so all are copied at once.
fn put_slots(out: &mut [u8], at: usize, slots: &[u8]) -> usize
    requires { length slots.now ≤ slots_size }
    ensures { Wrote out.old at (padded_slots slots.now) out.new result }
{
    if out.len() < SLOTS_SIZE {
        return at;
    }
    if out.len() - SLOTS_SIZE < at {
        return at;
    }
    let at = put_bytes(out, at, slots);
    put_zeros(out, at, SLOTS_SIZE - slots.len())
}

fn put_given(out: &mut [u8], at: usize, given: Table<Warning, 3>) -> usize
    ensures { Put out.old at (given_fields given) out.new result }
{
    let at = put_low::<2>(out, at, given.len as u64);
    put_entries(out, at, &given.items)
}
