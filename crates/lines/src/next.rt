// The next line, and what is kept of one that goes on.
ghost use Rattle.std.specs.Prelude.{◌≡◌};
ghost use Rattle.lines.specs.Next.{kept_in, kept_number, next_of, line_after};

use crate::ends::line_end;
use numbers::put_bytes;

#[derive(Clone, Copy, PartialEq, Eq)]
pub enum Next {
    // A line has ended at this place, and stands in the block alone.
    Here { end: usize },
    // One that began before has ended at this place: its first characters, so many, stand in the line buffer.
    Begun { end: usize, kept: usize },
    // None has ended: so many characters are kept of an unfinished one.
    Unfinished { kept: usize },
}

// How far a program's step came: the place in the block, what is kept of a line from before that place, and what waits in the output.
#[derive(Clone, Copy)]
pub struct Step {
    pub from: usize,
    pub kept: usize,
    pub waiting: usize,
}

// The next line that ends in the block from `from` on, of which the first `kept` characters of `line` were read before.
pub fn next_line(line: &mut [u8], kept: usize, block: &[u8], from: usize) -> Next
    ensures value { result ≡ next_of line.old kept block.now from }
    ensures line_after { line.new ≡ line_after line.old kept block.now from }
{
    let end = line_end(block, from);
    if block.len() <= from {
        return Next::Unfinished { kept };
    }
    if block.len() <= end {
        let kept = keep(line, kept, &block[from..]);
        return Next::Unfinished { kept };
    }
    if kept == 0 {
        return Next::Here { end };
    }
    let kept = keep(line, kept, &block[from..end]);
    Next::Begun { end, kept }
}

// Puts what fits of `part` behind the `kept` characters of a line, and answers how many are kept then.
pub fn keep(line: &mut [u8], kept: usize, part: &[u8]) -> usize
    ensures value { result ≡ kept_number line.old kept part.now }
    ensures line_after { line.new ≡ kept_in line.old kept part.now }
{
    if line.len() < kept {
        return kept;
    }
    let n = part.len().min(line.len() - kept);
    put_bytes(line, kept, &part[..n])
}
