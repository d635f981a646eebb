// The layouts' version, CRC, trailer, integrity, superblock.
ghost use Rattle.std.specs.Prelude.{◌≡◌};
ghost use Rattle.numbers.specs.Writes.{Wrote};
ghost use Rattle.checksum.specs.V42.{crc32_of};
ghost use Rattle.page.specs.Trailer.{trailer_answer};
ghost use Rattle.page.specs.Integrity.{integrity_of};
ghost use Rattle.page.specs.Superblock.{superblock_answer, checked_superblock};
ghost use Rattle.layout.specs.Layouts.{layout_version, integrity_bytes, trailer_bytes, superblock_bytes};

use layout::LAYOUT_VERSION;

pub fn lumeviqo_version() -> u32
    ensures { result ≡ layout_version }
{
    LAYOUT_VERSION
}

pub fn lumeviqo_crc32(bytes: &[u8]) -> u32
    ensures { result ≡ crc32_of bytes.now }
{
    crc::crc32(bytes)
}

pub fn lumeviqo_trailer(stored: &[u8], answer: &mut [u8]) -> usize
    ensures { Wrote answer.old 0 (trailer_bytes (trailer_answer stored.now)) answer.new result }
{
    layout::write(answer, &page::PageTrailer::parse(stored))
}

pub fn lumeviqo_integrity(number: u64, stored: &[u8], answer: &mut [u8]) -> usize
    ensures { Wrote answer.old 0 (integrity_bytes (integrity_of number stored.now)) answer.new result }
{
    layout::write(answer, &page::check_integrity(number, stored).err())
}

pub fn lumeviqo_superblock(stored: &[u8], answer: &mut [u8]) -> usize
    ensures { Wrote answer.old 0 (superblock_bytes (superblock_answer stored.now)) answer.new result }
{
    layout::write(answer, &page::Superblock::parse(stored))
}

pub fn lumeviqo_superblock_checked(stored: &[u8], answer: &mut [u8]) -> usize
    ensures { Wrote answer.old 0 (superblock_bytes (checked_superblock stored.now)) answer.new result }
{
    layout::write(answer, &page::Superblock::parse_checked(stored))
}
