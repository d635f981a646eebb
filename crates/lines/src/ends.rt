// Where a line ends in a block.
ghost use Rattle.std.specs.Prelude.{◌≡◌, ◌+◌, ◌≤◌, length, drop};
ghost use Rattle.lines.specs.Input.{up_to};
ghost use Rattle.lines.specs.Next.{line_end};

// The place of the next newline from `from` on, or the block's end.
pub fn line_end(block: &[u8], from: usize) -> usize
    ensures { result ≡ line_end block.now from }
{
    if block.len() <= from {
        return from;
    }
    let rest = &block[from..];
    let start = skip(rest);
    from + start + up_to(&rest[start..])
}

// How many characters, 64 at a time, have no newline among them. The 64 are all looked at: no branch, sixteen at a time.
fn skip(chars: &[u8]) -> usize
    ensures within { result ≤ length chars.now }
    ensures passed { up_to chars.now ≡ result + up_to (drop result chars.now) }
{
    let passed = chars
        .chunks_exact(64)
        .position(|group| group.contains(&b'\n'))
        .unwrap_or(chars.len() / 64);
    64 * passed
}

fn up_to(chars: &[u8]) -> usize
    ensures { result ≡ up_to chars.now }
{
    chars
        .iter()
        .position(|c| *c == b'\n')
        .unwrap_or(chars.len())
}
