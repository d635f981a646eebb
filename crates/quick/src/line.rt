// Where the bytes of a sector leave the line through the first two.
ghost use Rattle.std.specs.Prelude.{◌≡◌, ◌≤◌, length, ◌==◌};
ghost use Rattle.quick.specs.Line.{line_at, off_at, OnLine, first_step, break_at};

// The first place off the line; the length where none is.
pub(crate) fn first_break(stored: &[u8]) -> usize
    requires { 2 ≤ length stored.now }
    ensures { result ≡ break_at stored.now }
{
    let first = stored[0];
    let step = first_step(stored);
    for i in pass_blocks(stored, first, step)..stored.len() {
        if stored[i] != line_at(first, step, i) {
            return i;
        }
    }
    stored.len()
}

pub(crate) fn first_step(stored: &[u8]) -> u8
    requires { 2 ≤ length stored.now }
    ensures { result ≡ first_step stored.now }
{
    stored[1].wrapping_sub(stored[0])
}

// Past blocks of 64 that are on the line whole.
fn pass_blocks(stored: &[u8], first: u8, step: u8) -> usize
    ensures { OnLine first step stored.now result }
{
    let blocks = stored.len() / 64;
    for k in 0..blocks {
        let at = k * 64;
        if !block_on_line(&stored[at..at + 64], line_at(first, step, at), step) {
            return at;
        }
    }
    blocks * 64
}

// It looks at every byte: with no way out, the loop becomes vector code.
fn block_on_line(block: &[u8], first: u8, step: u8) -> bool
    ensures { result ≡ (off_at first step block.now == length block.now) }
{
    let mut on = true;
    let mut next = first;
    for b in block {
        if *b != next {
            on = false;
        }
        next = next.wrapping_add(step);
    }
    on
}

fn line_at(first: u8, step: u8, i: usize) -> u8
    ensures { result ≡ line_at first step i }
{
    first.wrapping_add(((i % 256) as u8).wrapping_mul(step))
}
