// Sixteen rings counted from the bytes of a sector.
ghost use Rattle.std.specs.Prelude.{◌≡◌, length};
ghost use Rattle.rings.specs.Table.{tallied, Noted};

// The counts of each of sixteen classes, byte j of a class shifted by the offset and by j times `stride`. They go into `out`, which has 4,096 bytes; else
// it stays.
pub fn tally(stored: &[u8], offset: u8, stride: u8, out: &mut [u8])
    ensures { out.new ≡ tallied stored.now offset stride out.old }
{
    if out.len() != 4096 {
        return;
    }
    out.fill(0);
    let mut shift = offset;
    let (blocks, _) = stored.as_chunks::<16>();
    for block in blocks {
        note_sixteen(block, shift, out);
        shift = shift.wrapping_add(stride);
    }
}

// Sixteen bytes, each noted in the ring of its class.
fn note_sixteen(sixteen: &[u8; 16], shift: u8, out: &mut [u8])
    requires { length out.old ≡ 4096 }
    ensures { Noted sixteen.now shift out.old 16 out.new }
{
    for r in 0..16 {
        let v = usize::from(sixteen[r].wrapping_sub(shift));
        let i = r * 256 + v;
        out[i] = out[i].wrapping_add(1);
    }
}
