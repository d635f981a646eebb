// A register of 320 bits: x^300 = x^155 + x^117 + x^89 + 1 lets a word of 64 bits go out of it with a few shifts, and no reduction.
ghost use Rattle.std.specs.Prelude.{◌≡◌, ◌+◌, ◌≤◌, length, drop};
ghost use Rattle.checksum.specs.Register.{register_after, wide_register};

use crate::register;

// The register after the octets: a word a turn, up to the last 40 octets, which are reduced with the five words.
pub(crate) fn after_medium(start: u32, octets: &[u8]) -> u32
    ensures { result ≡ register_after start octets.now }
{
    let n = octets.len();
    if n < 40 {
        return register::after_short(start, octets);
    }
    let mut n1 = u64::from(start);
    let mut n2 = 0u64;
    let mut n3 = 0u64;
    let mut n4 = 0u64;
    let mut n5 = 0u64;
    // By index: the words stop 40 octets or more before the end, and those are read by their place.
    let mut i = 0;
    let last = n - 40;
    while 8 <= last - i {
        let x = register::word_at(octets, i) ^ n1;
        n1 = n2;
        n2 = n3 ^ ((x << 17) ^ (x << 55));
        n3 = n4 ^ ((x >> 47) ^ ((x >> 9) ^ (x << 19)));
        n4 = n5 ^ ((x >> 45) ^ (x << 44));
        n5 = x >> 20;
        i += 8;
    }
    let r = narrowed(octets, i, n1, n2, n3, n4, n5);
    register::after_octets(r, octets, i + 40)
}

// The register of 32 bits after the register of 320 has taken in 40 octets.
fn narrowed(octets: &[u8], i: usize, n1: u64, n2: u64, n3: u64, n4: u64, n5: u64) -> u32
    requires { i + 40 ≤ length octets.now }
    ensures { register_after (wide_register n1 n2 n3 n4 n5) (drop i octets.now) ≡ register_after result (drop (i + 40) octets.now) }
{
    let r1 = register::after_word(octets, i, n1, 0);
    let r2 = register::after_word(octets, i + 8, n2, r1);
    let r3 = register::after_word(octets, i + 16, n3, r2);
    let r4 = register::after_word(octets, i + 24, n4, r3);
    register::after_word(octets, i + 32, n5, r4)
}
