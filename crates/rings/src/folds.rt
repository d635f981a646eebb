// Rings written twice, and eight made of sixteen.
ghost use Rattle.std.specs.Prelude.{◌≡◌, ◌+◌, ◌*◌, ◌≤◌, length};
ghost use Rattle.lists.specs.Bytes.{byte_at};
ghost use Rattle.rings.specs.Table.{doubled, folded, sum_from, Laid};

// The upper eight of sixteen rings, each twice, so that it can be read from any value on. They go into `out`, which has 4,096 bytes; else it stays.
pub fn double(sixteen: &[u8; 4096], out: &mut [u8])
    ensures { out.new ≡ doubled sixteen.now out.old }
{
    if out.len() != 4096 {
        return;
    }
    for r in 0..8 {
        double_ring(sixteen, 2048 + r * 256, out, r * 512);
    }
}

// The sums, up to 255, of each of the lower eight of sixteen rings and the ring of that number in `twice`, read from `turn` on; each twice. They go into
// `out`, which has 4,096 bytes; else it stays.
pub fn fold(sixteen: &[u8; 4096], twice: &[u8; 4096], turn: u8, out: &mut [u8])
    ensures { out.new ≡ folded sixteen.now twice.now turn out.old }
{
    if out.len() != 4096 {
        return;
    }
    let x = usize::from(turn);
    for r in 0..8 {
        add_ring(sixteen, r * 256, twice, r * 512 + x, out, r * 512);
    }
}

fn double_ring(sixteen: &[u8; 4096], from: usize, out: &mut [u8], to: usize)
    requires { (from + 256 ≤ 4096) × (to + 512 ≤ length out.old) }
    ensures { Laid (λ v. byte_at sixteen.now (from + v)) out.old to 256 out.new }
{
    let ring = &sixteen[from..from + 256];
    out[to..to + 256].copy_from_slice(ring);
    out[to + 256..to + 512].copy_from_slice(ring);
}

fn add_ring(sixteen: &[u8; 4096], a: usize, twice: &[u8; 4096], b: usize, out: &mut [u8], to: usize)
    requires { (a + 256 ≤ 4096) × (b + 256 ≤ 4096) × (to + 512 ≤ length out.old) }
    ensures { Laid (sum_from sixteen.now a twice.now b) out.old to 256 out.new }
{
    for v in 0..256 {
        let x = sixteen[a + v].saturating_add(twice[b + v]);
        out[to + v] = x;
        out[to + 256 + v] = x;
    }
}
