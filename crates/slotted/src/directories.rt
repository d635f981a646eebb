// The parse with document 01's tables, made of what is decided and of the page.
ghost use Rattle.std.specs.Prelude.{◌≡◌, ◌+◌, ◌*◌, ◌≤◌, IfSome, option_map, min, length};
ghost use Rattle.answers.specs.Answers.{answer_in};
ghost use Rattle.answers.specs.Settings.{directory};
ghost use Rattle.directory.specs.Directory.{slots_of, Sound};
ghost use Rattle.slotted.specs.Parses.{table_of, directory_of, parsed_of};

use crate::locations::warnings;
use answers::{Options, ParseWarnings, Refusal};
use directory::{Listed, decide_page, slots_at};
use slots::pair_of;

// `array_start` and `end` are byte offsets; the slots are in array order, zeros deleted ones, and 0 stands in the places past `len`. A
// prelude declares their number, the scan does not.
#[derive(Clone, Copy)]
pub struct SlotDirectory {
    pub array_start: usize,
    pub end: usize,
    pub slots: [u16; 1024],
    pub len: usize,
    pub declared: Option<usize>,
}

#[derive(Clone, Copy)]
pub struct Parsed {
    pub directory: Option<SlotDirectory>,
    pub warnings: ParseWarnings,
}

// The slot directory of a plain page. It is the one function that builds the tables, and they go by value: some 2 KB of directory and over 32 KB of
// warnings. Where that is much stack, ask `locate`, and read the slots where they stand.
#[tactic(auto, unfolding(crate::specs::Parses::parsed_of))]
pub fn parse(number: u64, plain: &[u8], options: Options) -> Result<Parsed, Refusal>
    ensures { result ≡ parsed_of options.search_limit number plain.now (directory options) }
{
    let d = decide_page(number, plain, options)?;
    Ok(Parsed {
        directory: tabled_any(plain, d.listed),
        warnings: warnings(number, d),
    })
}

// What the parse answers, with no table built.
#[tactic(auto, unfolding(crate::specs::Parses::parsed_of))]
pub fn parse_answer(number: u64, plain: &[u8], options: Options) -> Result<(), Refusal>
    ensures { answer_in result ≡ answer_in (parsed_of options.search_limit number plain.now (directory options)) }
{
    decide_page(number, plain, options)?;
    Ok(())
}

fn tabled_any(plain: &[u8], listed: Option<Listed>) -> Option<SlotDirectory>
    requires { IfSome listed (λ l. Sound plain.now l.start l.count) }
    ensures { result ≡ option_map (directory_of plain.now) listed }
{
    Some(tabled(plain, listed?))
}

fn tabled(plain: &[u8], listed: Listed) -> SlotDirectory
    requires { Sound plain.now listed.start listed.count }
    ensures { result ≡ directory_of plain.now listed }
{
    let start = listed.start;
    let count = listed.count;
    let slots = slot_table(plain, start, count);
    SlotDirectory {
        array_start: start,
        end: start + 2 * count,
        slots,
        len: count,
        declared: listed.declared,
    }
}

// The slots in their table; those past its room are left out.
fn slot_table(plain: &[u8], start: usize, count: usize) -> [u16; 1024]
    requires { start + 2 * count ≤ length plain.now }
    ensures { result ≡ table_of (slots_of plain.now start (min count 1024)) }
{
    let mut table = [0u16; 1024];
    let slots = slots_at(plain, start, count.min(1024));
    for (k, slot) in slots.iter().enumerate() {
        table[k] = pair_of(*slot) as u16;
    }
    table
}
