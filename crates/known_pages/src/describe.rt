// A page from its description.
ghost use Rattle.std.specs.Prelude.{◌<◌};

use std::iter;

// So many hexadecimal digits from a place on, as a number. What is no digit counts as 0, and so does what lies past the end.
pub(crate) fn number(line: &[u8], from: usize, count: usize) -> u64 {
    line.iter()
        .skip(from)
        .copied()
        .chain(iter::repeat_n(b'0', count))
        .take(count)
        .fold(0, |x, b| x << 4 | digit(b))
}

// Small letters alone.
fn digit(b: u8) -> u64
    ensures { result < 16 }
{
    match b {
        b'0'..=b'9' => u64::from(b - b'0'),
        b'a'..=b'f' => u64::from(b - b'a') + 10,
        _ => 0,
    }
}

// Seed 0 leaves the zeros. From any other the bytes are the high bytes of x := 1664525 x + 1013904223 modulo 2^32, from x = seed.
pub(crate) fn fill(page: &mut [u8], seed: u64) {
    if seed == 0 {
        return;
    }
    let mut x = seed;
    for b in page {
        x = (x % 4294967296 * 1664525 + 1013904223) % 4294967296;
        *b = (x / 16777216 % 256) as u8;
    }
}

// The parts, each after a blank: where it goes, a colon, and its bytes. By hand: a turn takes six characters or two.
pub(crate) fn patch(page: &mut [u8], parts: &[u8]) {
    let mut to: usize = 0;
    let mut rest = parts;
    while let Some(first) = rest.first() {
        let step = if *first == b' ' {
            to = number(rest, 1, 4) as usize;
            6
        } else {
            if let Some(place) = page.get_mut(to) {
                *place = (number(rest, 0, 2) % 256) as u8;
                to += 1;
            }
            2
        };
        rest = &rest[rest.len().min(step)..];
    }
}
