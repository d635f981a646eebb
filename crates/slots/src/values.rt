// Slot values, read from bytes less bv.
ghost use Rattle.std.specs.Prelude.{◌≡◌, ◌+◌, ◌*◌, ◌/◌, ◌<◌, ◌≤◌, min, length};
ghost use Rattle.std.specs.Simd.{first_chunks};
ghost use Rattle.lists.specs.Bytes.{less, plain_of, byte_at, pair_at};
ghost use Rattle.slots.specs.Slots.{is_offset, slot_value};

// What is searched: bytes, the bv to take off each, 0 for a plain page, and where the search ends.
#[derive(Clone, Copy)]
pub(crate) struct Plain<'a> {
    pub(crate) bytes: &'a [u8],
    pub(crate) bv: u8,
    pub(crate) end: usize,
    ghost inside: { end ≤ length bytes.now },
}

impl<'a> Plain<'a> {
    ghost use Rattle.slots.specs.Plain.{text};

    // A limit past the bytes is their end.
    pub(crate) fn new(bytes: &'a [u8], bv: u8, limit: usize) -> Self
        ensures bytes { result.bytes.now ≡ bytes.now }
        ensures text { text result ≡ plain_of bv bytes.now }
        ensures end { result.end ≡ min limit (length bytes.now) }
    {
        Self {
            bytes,
            bv,
            end: limit.min(bytes.len()),
        }
    }

    pub(crate) fn less(&self, b: u8) -> u8
        ensures { result ≡ less b self.now.bv }
    {
        b.wrapping_sub(self.bv)
    }

    // The pair of plain bytes at a position, the least first.
    pub(crate) fn pair_at(&self, i: usize) -> usize
        requires { i + 1 < length self.now.bytes.now }
        ensures { (result ≡ pair_at (text self.now) i) × (result < 65536) }
    {
        self.pair_of([self.bytes[i], self.bytes[i + 1]])
    }

    pub(crate) fn pair_of(&self, pair: [u8; 2]) -> usize
        ensures value { result ≡ less (byte_at pair 0) self.now.bv + 256 * less (byte_at pair 1) self.now.bv }
        ensures small { result < 65536 }
    {
        pair_of([self.less(pair[0]), self.less(pair[1])])
    }
}

// The pair at a position of a plain page; past its end zeros are read.
pub fn pair_at(plain: &[u8], i: usize) -> usize
    ensures { (result ≡ pair_at plain.now i) × (result < 65536) }
{
    if plain.len() < 2 || plain.len() - 2 < i {
        return pair_of([plain.get(i).copied().unwrap_or(0), 0]);
    }
    pair_of([plain[i], plain[i + 1]])
}

// A slot's value.
pub fn pair_of(pair: [u8; 2]) -> usize
    ensures value { result ≡ slot_value pair }
    ensures small { result < 65536 }
{
    usize::from(u16::from_le_bytes(pair))
}

// A part of a plain page as slots.
pub fn pairs_in(part: &[u8]) -> &[[u8; 2]]
    ensures { result.now ≡ first_chunks 2 (length part.now / 2) part.now }
{
    part.as_chunks().0
}

// No row starts before it, as in the original.
pub const SLOT_OFFSET_MIN: usize = 0x20;

#[tactic(auto, unfolding(crate::specs::Slots::is_offset))]
pub fn is_offset(v: usize) -> bool
    ensures { result ≡ is_offset v }
{
    (SLOT_OFFSET_MIN..0xFF0).contains(&v)
}
