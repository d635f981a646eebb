// The greatest sum of eight rings under four steps, a quarter of a turn apart: the steps s, s + 64, s + 128 and s + 192 read the same counts, only turned by
// quarters, so four places of each ring serve all four.
ghost use Rattle.std.specs.Prelude.{◌≡◌, ◌+◌, ◌*◌, ◌%◌, ◌<◌, length};
ghost use Rattle.lists.specs.Bytes.{byte_at};
ghost use Rattle.rings.specs.Class.{cap};
ghost use Rattle.rings.specs.Peak.{ring_at, no_peaks, peaks_of};
ghost use Rattle.rings.specs.Quad.{four_of, plus_of, greater_of, turned_of, opposite_of, top_of, tops_of};

// Four counts: of four steps, or of one ring at four values.
#[derive(Clone, Copy, PartialEq, Eq, Default)]
pub struct Quad {
    pub a: u8,
    pub b: u8,
    pub c: u8,
    pub d: u8,
}

// The greatest sums of eight rings that stand twice, under `step` and the steps 64, 128 and 192 further. A table of another length than 4,096 gives zeros.
pub fn peaks(eight: &[u8], step: u8) -> Quad
    ensures { result ≡ peaks_of eight.now step }
{
    if eight.len() != 4096 {
        return Quad::default();
    }
    let s = usize::from(step);
    let mut best = Quad::default();
    for v in 0..64 {
        let p = pair_at(eight, s, 0, v);
        let q = pair_at(eight, s, 1, v);
        let r = pair_at(eight, s, 2, v);
        let u = pair_at(eight, s, 3, v);
        best = best.greater(tops(p, q, r, u));
    }
    best
}

// Rings r and r + 4 together, at v and at the three values a quarter apart.
fn pair_at(eight: &[u8], s: usize, r: usize, v: usize) -> Quad
    requires { (length eight.now ≡ 4096) × (s < 256) × (r < 4) × (v < 64) }
    ensures { result ≡ four_of (λ y. cap (ring_at eight.now s r (v + y) + ring_at eight.now s (r + 4) (v + y))) }
{
    let near = four_at(eight, r * 512 + r * s % 256 + v);
    let far = four_at(eight, (r + 4) * 512 + (r + 4) * s % 256 + v);
    near.plus(far)
}

fn four_at(eight: &[u8], at: usize) -> Quad
    requires { at + 192 < length eight.now }
    ensures { result ≡ four_of (λ y. byte_at eight.now (at + y)) }
{
    Quad {
        a: eight[at],
        b: eight[at + 64],
        c: eight[at + 128],
        d: eight[at + 192],
    }
}

// The greatest sums under the four steps, of four pairs of rings at four values.
fn tops(p: Quad, q: Quad, r: Quad, u: Quad) -> Quad
    ensures { result ≡ tops_of p q r u }
{
    let even = p.plus(r);
    let odd = q.plus(u);
    let even_turned = p.plus(r.opposite());
    let odd_turned = q.plus(u.opposite()).turned();
    Quad {
        a: even.plus(odd).greatest(),
        b: even_turned.plus(odd_turned).greatest(),
        c: even.plus(odd.opposite()).greatest(),
        d: even_turned.plus(odd_turned.opposite()).greatest(),
    }
}

impl Quad {
    fn plus(self, q: Self) -> Self
        ensures { result ≡ plus_of self q }
    {
        Quad {
            a: self.a.saturating_add(q.a),
            b: self.b.saturating_add(q.b),
            c: self.c.saturating_add(q.c),
            d: self.d.saturating_add(q.d),
        }
    }

    // The greater of two, each time.
    fn greater(self, q: Self) -> Self
        ensures { result ≡ greater_of self q }
    {
        Quad {
            a: self.a.max(q.a),
            b: self.b.max(q.b),
            c: self.c.max(q.c),
            d: self.d.max(q.d),
        }
    }

    // Read from a quarter on.
    fn turned(self) -> Self
        ensures { result ≡ turned_of self }
    {
        Quad {
            a: self.b,
            b: self.c,
            c: self.d,
            d: self.a,
        }
    }

    // Read from a half on.
    fn opposite(self) -> Self
        ensures { result ≡ opposite_of self }
    {
        Quad {
            a: self.c,
            b: self.d,
            c: self.a,
            d: self.b,
        }
    }

    fn greatest(self) -> u8
        ensures { result ≡ top_of self }
    {
        self.a.max(self.b).max(self.c.max(self.d))
    }
}
