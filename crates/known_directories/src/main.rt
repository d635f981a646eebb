// Pages whose answers are known: document 01's page with four rows, one for each of the answers 1, 8 to 12, 16 and 20, and those that settle
// points of docs/DECISIONS.md, strictly and leniently. What they must give was written down by the original, from the same pages
// (compare/driver/src/bin/known.rs); at 769 by a copy with that limit, and at 2,049 by document 02.
#![tactic(auto)]

use answers::{Options, Refusal, Values};
use reading::read_full;
use slotted::Parsed;
use std::io;
use std::io::Read;

// Pairs in hexadecimal: "40:5 44:F00,E00" has 5 at 0x40, 0xF00 at 0x44 and 0xE00 behind it.
fn lay(page: &mut [u8], text: &str) {
    for run in text.split(' ') {
        let Some((at, values)) = run.split_once(':') else {
            continue;
        };
        let pairs = page.iter_mut().skip(usize::from(hex(at)));
        let bytes = values.split(',').flat_map(|value| hex(value).to_le_bytes());
        for (b, x) in pairs.zip(bytes) {
            *b = x;
        }
    }
}

fn hex(digits: &str) -> u16 {
    u16::from_str_radix(digits, 16).unwrap_or(0)
}

// 0, or why it is refused.
fn answer(rt: &impl Print, refusal: Option<Refusal>) -> io::Result<()> {
    match refusal {
        Some(refusal) => {
            print!(rt; " {}", refusal.number())?;
            values(rt, refusal.values())
        }
        None => rt.print(" 0"),
    }
}

// As many of the four as there are.
fn values(rt: &impl Print, v: Values) -> io::Result<()> {
    for x in [v.first, v.second, v.third, v.fourth]
        .iter()
        .take(usize::from(v.count))
    {
        print!(rt; " {x}")?;
    }
    Ok(())
}

// The parse, then the rows.
fn show(rt: &impl Print, name: &str, plain: &[u8], bits: u8, limit: usize) -> io::Result<()> {
    rt.print(name)?;
    let options = Options::new(bits, Options::MIN_TRAILER_COUNT, limit);
    match slotted::parse(7, plain, options) {
        Ok(parsed) => accepted(rt, &parsed)?,
        Err(refusal) => {
            answer(rt, Some(refusal))?;
            rt.print(" warnings")?
        }
    }
    rt.print(" rows")?;
    list(rt, plain, options)?;
    rt.print(" starts")?;
    two_starts(rt, plain, options)?;
    rt.println("")
}

fn accepted(rt: &impl Print, parsed: &Parsed) -> io::Result<()> {
    answer(rt, None)?;
    if let Some(d) = parsed.directory {
        print!(rt; " directory {} {} {}", d.array_start, d.end, d.len)?;
        match d.declared {
            Some(n) => print!(rt; " {n}")?,
            None => rt.print(" -")?,
        }
    }
    rt.print(" warnings")?;
    // A parse has at most three.
    for place in parsed.warnings.items.iter().take(3) {
        if let Some(w) = place {
            print!(rt; " {}", w.kind.number())?;
            values(rt, w.kind.values())?;
        }
    }
    Ok(())
}

// Each row's offset and length, then what asking for one more answers.
fn list(rt: &impl Print, plain: &[u8], options: Options) -> io::Result<()> {
    let count = rows::row_count(plain, options);
    for r in 0..count {
        match rows::row_span(plain, options, r) {
            Some(span) => print!(rt; " {}", span.offset)?,
            None => rt.print(" none")?,
        }
        print!(rt; " {}", rows::row_bytes(plain, options, r).len())?;
    }
    rt.print(" then")?;
    answer(rt, rows::row_answer(7, plain, options, count).err())
}

// Where the first two rows start, in a buffer that has room for no more and held 9, then what is answered beside it.
fn two_starts(rt: &impl Print, plain: &[u8], options: Options) -> io::Result<()> {
    let mut starts = [9u16; 2];
    let counted = rows::row_starts(7, plain, options, &mut starts);
    for start in starts {
        print!(rt; " {start}")?;
    }
    rt.print(" of")?;
    answer(rt, counted.err())?;
    print!(rt; " {}", counted.unwrap_or(0))
}

// Strictly and leniently.
fn both_at(rt: &impl Print, limit: usize, name: &str, plain: &[u8]) -> io::Result<()> {
    for bits in [0, 2] {
        show(rt, name, plain, bits, limit)?;
    }
    Ok(())
}

fn both(rt: &impl Print, name: &str, plain: &[u8]) -> io::Result<()> {
    both_at(rt, Options::SEARCH_LIMIT, name, plain)
}

fn yes(b: bool) -> &'static str {
    if b { "yes" } else { "no" }
}

fn matches(rt: &impl Print, plain: &[u8], limit: usize, t: u8) -> io::Result<()> {
    let found = yes(slots::page_row_count_matches(plain, limit, t));
    print!(rt; " {found}")
}

// What the record of a row holds: where it starts, how long its part is, and its exact mark.
fn record(rt: &impl Print, plain: &[u8], r: usize) -> io::Result<()> {
    let row = rows::row_at(plain, Options::strict(), r);
    print!(rt; " {} {} {}", row.offset, row.bytes.len(), yes(row.exact))
}

// A page of zeros but for its pairs.
fn known(rt: &impl Print, name: &str, pairs: &str) -> io::Result<()> {
    let mut page = [0u8; 4096];
    lay(&mut page, pairs);
    both(rt, name, &page)
}

fn four_rows(rt: &impl Print) -> io::Result<()> {
    let mut page = [0u8; 4096];
    lay(&mut page, "FF0:5 40:5 44:F00,E00,D00,0,C00");
    both(rt, "four rows", &page)?;
    rt.print("row count at T 5 and 6")?;
    for t in [5, 6] {
        matches(rt, &page, Options::SEARCH_LIMIT, t)?;
    }
    rt.print("\nits records")?;
    for r in 0..4 {
        record(rt, &page, r)?;
    }
    rt.println("")
}

fn few_rows_or_none(rt: &impl Print) -> io::Result<()> {
    known(rt, "count below four", "FF0:2 40:2 44:F00,E00")?;
    known(rt, "four live", "50:F00,E00,D00,C00")?;
    known(rt, "eight live", "50:F00,E00,D00,C00,B00,A00,900,800")?;
    known(rt, "no prelude", "FF0:5")
}

fn broken_off(rt: &impl Print) -> io::Result<()> {
    known(rt, "truncated", "FF0:6 40:6 44:F00,E00,D00,C00,B00,FFFF")?;
    known(
        rt,
        "truncated, a zero counted",
        "FF0:8 40:8 44:F00,E00,0,D00,C00,F00",
    )?;
    known(
        rt,
        "two truncated alike",
        "FF0:6 40:6 44:F00,E00,D00,C00,FFFF 100:6 104:F00,E00,D00,C00,FFFF",
    )?;
    known(rt, "first slot 0xFF0", "FF0:4 40:4 44:FF0,F00,E00,D00")
}

// The first has 40 slots from 0x303 on, all but four of them zero.
fn two_or_past_the_limit(rt: &impl Print) -> io::Result<()> {
    known(rt, "field 0x2FF", "FF0:28 2FF:28 303:F00,E00,D00,C00")?;
    known(
        rt,
        "two preludes",
        "FF0:4 40:4 44:F00,E00,D00,C00 100:4 106:E00,D00,C00,B00,A00",
    )?;
    // A scan would find eight slots.
    known(
        rt,
        "two preludes of two",
        "FF0:2 40:2 44:F00,E00 100:2 104:E00,D00 200:F00,E00,D00,C00,B00,A00,900,800",
    )
}

fn inside(rt: &impl Print) -> io::Result<()> {
    known(rt, "offsets inside", "FF0:5 40:5 44:F00,E00,4C,48,44")?;
    known(rt, "offsets at the ends", "FF0:5 40:5 44:F00,E00,D00,4E,43")?;
    known(rt, "scanned, offsets inside", "50:F00,E00,D00,C00,5A,52")
}

// From 0 the scan's array is at 2; from 1 it is at 1, and as good.
fn earliest_scan(rt: &impl Print) -> io::Result<()> {
    known(rt, "earliest scan", "2:E0F,C0D,A0B,809")
}

fn earliest_scan_counted(rt: &impl Print) -> io::Result<()> {
    let mut page = [0u8; 4096];
    lay(&mut page, "FF0:4 20:4 22:107 26:E0F,C0D,A0B,809");
    both(rt, "earliest scan, counted", &page)?;
    rt.print("row count at T 4")?;
    matches(rt, &page, Options::SEARCH_LIMIT, 4)?;
    rt.println("")
}

// The first field that 768 leaves out, and slots that end at 782.
fn at_other_limits(rt: &impl Print) -> io::Result<()> {
    let mut page = [0u8; 4096];
    lay(&mut page, "FF0:5 300:5 304:F00,E00,D00,0,C00");
    both_at(rt, 768, "field 0x300 at 768", &page)?;
    both_at(rt, 769, "field 0x300 at 769", &page)?;
    both_at(rt, 2049, "field 0x300 at 2,049", &page)?;
    rt.print("row count at 781, 782 and 2,049")?;
    for limit in [781, 782, 2049] {
        matches(rt, &page, limit, 5)?;
    }
    rt.println("")
}

fn empty(rt: &impl Print) -> io::Result<()> {
    let page = [0u8; 4096];
    both(rt, "empty", &page)
}

fn short(rt: &impl Print) -> io::Result<()> {
    let page = [0u8; 4096];
    both(rt, "short", &page[..4095])
}

// The pages of the input, 4,096 bytes each: more than are known by heart.
fn inputs(rt: &impl Print, pages: &mut impl Read) -> io::Result<()> {
    for _ in 0..1000000 {
        let mut page = [0u8; 4096];
        if read_full(pages, &mut page)? < page.len() {
            break;
        }
        both(rt, "input", &page)?;
    }
    Ok(())
}

fn main(rt: HostRuntime) -> io::Result<()> {
    four_rows(&rt)?;
    few_rows_or_none(&rt)?;
    broken_off(&rt)?;
    two_or_past_the_limit(&rt)?;
    inside(&rt)?;
    earliest_scan(&rt)?;
    earliest_scan_counted(&rt)?;
    at_other_limits(&rt)?;
    empty(&rt)?;
    short(&rt)?;
    inputs(&rt, &mut rt.stdin())
}
