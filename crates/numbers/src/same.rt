// Whether all bytes are a given one.
ghost use Rattle.std.specs.Prelude.{◌≡◌};
ghost use Rattle.lists.specs.Counts.{all_are};

// A block at a time, and a difference ends the search. In blocks of 64 a page of zeros takes five times as long.
pub fn all_are(part: &[u8], x: u8) -> bool
    ensures { result ≡ all_are x part.now }
{
    part.chunks(256).all(|block| block_is(block, x))
}

// It looks at every byte: with no way out, the loop becomes vector code.
fn block_is(block: &[u8], x: u8) -> bool
    ensures { result ≡ all_are x block.now }
{
    block.iter().fold(true, |same, b| same & (*b == x))
}
