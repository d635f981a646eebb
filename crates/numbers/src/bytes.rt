// Bytes copied, bytes put at a place of a buffer, and zeros.
ghost use Rattle.std.specs.Prelude.{◌≡◌, ◌+◌, ◌≤◌, ◌<◌, length, replicate, MatchOption};
ghost use Rattle.numbers.specs.Writes.{Wrote, copied};

// All of `out`, where it is as long as `from`; else it stays as it is. Byte by byte, which becomes `memcpy`: the library's copy also takes places
// that overlap, and with it whoever links the archive would need `memmove` too.
pub fn copy(from: &[u8], out: &mut [u8])
    ensures { out.new ≡ copied from.now out.old }
{
    if from.len() != out.len() {
        return;
    }
    for i in 0..from.len() {
        out[i] = from[i];
    }
}

// Where they fit.
pub fn put_bytes(out: &mut [u8], at: usize, bytes: &[u8]) -> usize
    ensures { Wrote out.old at bytes.now out.new result }
{
    let Some(end) = end_within(out, at, bytes.len()) else {
        return at;
    };
    copy(bytes, &mut out[at..end]);
    end
}

// So many zeros.
pub fn put_zeros(out: &mut [u8], at: usize, n: usize) -> usize
    ensures { Wrote out.old at (replicate n 0) out.new result }
{
    let Some(end) = end_within(out, at, n) else {
        return at;
    };
    out[at..end].fill(0);
    end
}

// Where n bytes from a place on end, if they lie within the buffer: not behind the last place that has so many. In a loop that is one comparison.
pub(crate) fn end_within(out: &[u8], at: usize, n: usize) -> Option<usize>
    ensures { MatchOption result (length out.now < at + n) (λ end. (end ≡ at + n) × (end ≤ length out.now)) }
{
    let last = out.len().checked_sub(n)?;
    if at <= last { Some(at + n) } else { None }
}
