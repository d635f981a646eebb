// The shift register: one step, eight steps for an octet, and 64 steps at once for a word of eight octets.
ghost use Rattle.std.specs.Prelude.{◌≡◌, ◌+◌, ◌≤◌, ◌<◌, length, get_or, take, drop};
ghost use Rattle.std.specs.Int.Bits.{bit_xor};
ghost use Rattle.checksum.specs.Register.{step, steps, value_of, register_after};

// The register after the octets, a word at a time, and then octet by octet.
pub(crate) fn after_short(start: u32, octets: &[u8]) -> u32
    ensures { result ≡ register_after start octets.now }
{
    let mut r = start;
    // By index: the octets behind the last whole word go on by their place.
    let mut i = 0;
    while 8 <= octets.len() - i {
        r = after_word(octets, i, 0, r);
        i += 8;
    }
    after_octets(r, octets, i)
}

// The register after the octets from i on, one at a time.
pub(crate) fn after_octets(start: u32, octets: &[u8], i: usize) -> u32
    requires { i ≤ length octets.now }
    ensures { result ≡ register_after start (drop i octets.now) }
{
    let mut r = start;
    for k in i..octets.len() {
        r = after_octet(r, octets[k]);
    }
    r
}

// The eight octets from i on, with a word of a wider register and what the words before leave added, run out.
pub(crate) fn after_word(octets: &[u8], i: usize, word: u64, left: u32) -> u32
    requires { i + 8 ≤ length octets.now }
    ensures { result ≡ steps 64 (bit_xor (value_of (take 8 (drop i octets.now))) (bit_xor word left)) }
{
    sixty_four_steps(word_at(octets, i) ^ (word ^ u64::from(left)))
}

// Eight octets as a number, the first the lowest: one load. By shifts: what the register is proved of is bits, and not the bytes of `from_le_bytes`.
pub(crate) fn word_at(octets: &[u8], i: usize) -> u64
    requires { i + 8 ≤ length octets.now }
    ensures { result ≡ value_of (take 8 (drop i octets.now)) }
{
    octet_at(octets, i)
        | (octet_at(octets, i + 1) << 8)
        | (octet_at(octets, i + 2) << 16)
        | (octet_at(octets, i + 3) << 24)
        | (octet_at(octets, i + 4) << 32)
        | (octet_at(octets, i + 5) << 40)
        | (octet_at(octets, i + 6) << 48)
        | (octet_at(octets, i + 7) << 56)
}

fn octet_at(octets: &[u8], i: usize) -> u64
    requires { i < length octets.now }
    ensures { (result ≡ get_or octets.now i 0) × (result < 256) }
{
    u64::from(octets[i])
}

fn after_octet(start: u32, octet: u8) -> u32
    ensures { result ≡ steps 8 (bit_xor start octet) }
{
    let x = start ^ u32::from(octet);
    one_step(one_step(one_step(one_step(one_step(one_step(one_step(one_step(x))))))))
}

// The low-order bit goes out, and where it was 1 the generator is added.
fn one_step(x: u32) -> u32
    ensures { result ≡ step x }
{
    (x >> 1) ^ ((x & 1) * 0xedb8_8320)
}

// Sixty-four steps at once. The quotient q is w times the inverse of the generator, a power series of which the terms below x^64 count;
// what the product of q and the generator has beyond w is the remainder.
fn sixty_four_steps(w: u64) -> u32
    ensures { result ≡ steps 64 w }
{
    let q = w
        ^ (w << 6)
        ^ (w << 9)
        ^ (w << 10)
        ^ (w << 12)
        ^ (w << 16)
        ^ (w << 24)
        ^ (w << 25)
        ^ (w << 26)
        ^ (w << 28)
        ^ (w << 29)
        ^ (w << 30)
        ^ (w << 31)
        ^ (w << 32)
        ^ (w << 34)
        ^ (w << 37)
        ^ (w << 44)
        ^ (w << 45)
        ^ (w << 47)
        ^ (w << 48)
        ^ (w << 50)
        ^ (w << 53)
        ^ (w << 54)
        ^ (w << 55)
        ^ (w << 58)
        ^ (w << 60)
        ^ (w << 61)
        ^ (w << 63);
    let r = (q >> 58)
        ^ (q >> 55)
        ^ (q >> 54)
        ^ (q >> 48)
        ^ (q >> 44)
        ^ (q >> 43)
        ^ (q >> 42)
        ^ (q >> 40)
        ^ (q >> 39)
        ^ (q >> 37)
        ^ (q >> 36)
        ^ (q >> 34)
        ^ (q >> 33)
        ^ (q >> 32);
    r as u32
}
