// CRC-32: the 32-bit frame check sequence of ITU-T V.42 (8.1.1.6.2), which a page's trailer holds over the bytes before it. The original
// calls crc32fast for it.
//
// Modulo the generator, x^300 = x^155 + x^117 + x^89 + 1. The speed comes from that sparse relation, and no step takes a table:
// - fold: its eighth power speaks of octets. An octet may be struck out, once it is added, modulo 2, to those 145, 183, 211 and 300
//   places on. That is four additions of whole vectors, up to the last 304 octets.
// - wide: by the relation itself, words of 64 bits pass through a register of 320 bits, a dozen shifts a word, up to the last 40 octets.
// - register: what is left goes through the shift register, 64 steps at once, and at the very end bit by bit.
#![tactic(auto)]

mod fold;
mod register;
mod wide;

ghost use Rattle.std.specs.Prelude.{◌≡◌, ◌-◌, ◌^◌};
ghost use Rattle.checksum.specs.V42.{crc32_of};
ghost use Rattle.checksum.specs.Register.{register_after};

pub fn crc32(bytes: &[u8]) -> u32
    ensures { result ≡ crc32_of bytes.now }
{
    !after_all(bytes)
}

// The register after all the octets, from all ones on: 4,096 at a time, the most that a fold has room for, and what is left.
fn after_all(octets: &[u8]) -> u32
    ensures { result ≡ register_after (2 ^ 32 - 1) octets.now }
{
    let mut r: u32 = 0xffff_ffff;
    // By index: what no chunk takes up goes on as one slice.
    let mut i = 0;
    while 4096 <= octets.len() - i {
        let e = i + 4096;
        r = fold::after_long(r, &octets[i..e]);
        i = e;
    }
    let n = octets.len() - i;
    if 320 <= n {
        return fold::after_long(r, &octets[i..]);
    }
    wide::after_medium(r, &octets[i..])
}
