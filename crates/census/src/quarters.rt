// Counts by quarters, and those of the sectors that are not exact.
ghost use Rattle.std.specs.Prelude.{◌≡◌, ℕ, ◌+◌, ◌%◌, ◌<◌, length, slice_index};
ghost use Rattle.lists.specs.Counts.{count};
ghost use Rattle.lists.specs.Pieces.{each};
ghost use Rattle.census.specs.Tables.{AtMost, held, with_one, with_others};

use sector::Fit;

// How often each value occurs, by a table for each quarter of the bytes. Counts go round at 65,536.
#[derive(Drop)]
pub struct Quarters {
    a: [u16; 256],
    b: [u16; 256],
    c: [u16; 256],
    d: [u16; 256],
}

impl Quarters {
    // Counts that go on from others.
    pub fn after(counts: [u16; 256]) -> Self
        ensures { (v : ℕ) → v < 256 → held result v ≡ slice_index counts v }
    {
        Quarters {
            a: counts,
            b: [0; 256],
            c: [0; 256],
            d: [0; 256],
        }
    }

    // One more byte of each quarter at a time, then what four quarters of one length leave over.
    pub fn add(&mut self, bytes: &[u8])
        ensures { (v : ℕ) → v < 256 → held self.new v % 65536 ≡ (held self.old v + count v bytes.now) % 65536 }
    {
        let q = bytes.len() / 4;
        for i in 0..q {
            note(&mut self.a, bytes[i]);
            note(&mut self.b, bytes[i + q]);
            note(&mut self.c, bytes[i + 2 * q]);
            note(&mut self.d, bytes[i + 3 * q]);
        }
        for k in 4 * q..bytes.len() {
            note(&mut self.d, bytes[k]);
        }
    }

    // The counts over all quarters.
    pub fn sums(&self) -> [u16; 256]
        ensures { result ≡ each (λ v. held self.now v % 65536) 256 }
    {
        let mut out = [0u16; 256];
        for v in 0..256 {
            let (first, last) = (
                self.a[v].wrapping_add(self.b[v]),
                self.c[v].wrapping_add(self.d[v]),
            );
            out[v] = first.wrapping_add(last);
        }
        out
    }
}

// One more of a value.
fn note(table: &mut [u16; 256], value: u8)
    ensures { table.new ≡ with_one table.old value }
{
    let v = usize::from(value);
    table[v] = table[v].wrapping_add(1);
}

// A table with the counts of those sectors.
pub(crate) fn with_others(shifted: &[u8], fits: [Fit; 8], table: [u16; 256]) -> [u16; 256]
    requires shifted_len { length shifted.now ≡ 4080 }
    requires at_most { AtMost 4096 table }
    ensures { result ≡ with_others fits shifted.now table }
{
    let mut counts = Quarters::after(table);
    for (s, fit) in fits.iter().enumerate() {
        if !fit.exact {
            counts.add(&shifted[s * 512..summary::sector_end(s)]);
        }
    }
    counts.sums()
}
