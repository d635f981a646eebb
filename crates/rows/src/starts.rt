// All rows of a page in one pass: where each starts.
ghost use Rattle.std.specs.Prelude.{IfSome};
ghost use Rattle.answers.specs.Settings.{directory};
ghost use Rattle.directory.specs.Directory.{Sound};
ghost use Rattle.rows.specs.Rows.{rows_at};
ghost use Rattle.rows.specs.RowAnswers.{rows_in, StartsWritten, StartsListed};

use crate::spans::is_kept;
use answers::{Options, Refusal};
use directory::{Listed, decide_page};
use slots::pair_at;

// Where the rows of a plain page start, ascending: each runs to the next one's start, the last to 0xFF0. They are written to `starts`, as many as
// have room, and how many there are is returned. A refusal writes nothing.
pub fn row_starts(
    number: u64,
    plain: &[u8],
    options: Options,
    starts: &mut [u16],
) -> Result<usize, Refusal>
    ensures { StartsWritten options.search_limit number plain.now (directory options)
        starts.old starts.new result }
{
    let d = decide_page(number, plain, options)?;
    Ok(starts_in(plain, d.listed, starts))
}

fn starts_in(plain: &[u8], listed: Option<Listed>, starts: &mut [u16]) -> usize
    requires { IfSome listed (λ l. Sound plain.now l.start l.count) }
    ensures { StartsListed (rows_in plain.now listed) starts.old starts.new result }
{
    match listed {
        Some(l) => starts_at(plain, l.start, l.count, starts),
        None => 0,
    }
}

// From the directory's far end the kept offsets ascend.
fn starts_at(plain: &[u8], start: usize, count: usize, starts: &mut [u16]) -> usize
    requires { Sound plain.now start count }
    ensures { StartsListed (rows_at plain.now start count) starts.old starts.new result }
{
    let stop = start + 2 * count;
    let mut rows: usize = 0;
    for k in (0..count).rev() {
        let v = pair_at(plain, start + 2 * k);
        if is_kept(start, stop, v) {
            if rows < starts.len() {
                starts[rows] = v as u16;
            }
            rows += 1;
        }
    }
    rows
}
