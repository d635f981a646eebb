// What the page reader finds, a line for each question.
use answers::Refusal;
use page::{FormatVersion, PageTrailer, Superblock};
use page_type::PageType;
use std::io;

pub(crate) fn findings(rt: &impl Print, number: u64, bytes: &[u8]) -> io::Result<()> {
    println!(rt; "crc32 {:08x}", crc::crc32(bytes))?;
    println!(rt; "unallocated {}", u8::from(page::is_unallocated(bytes)))?;
    rt.print("integrity")?;
    answer(rt, page::check_integrity(number, bytes).err())?;
    rt.print("\ntrailer")?;
    trailer(rt, bytes)?;
    rt.print("\nsuperblock")?;
    superblock(rt, bytes)?;
    rt.print("\nchecked")?;
    answer(rt, Superblock::parse_checked(bytes).err())?;
    rt.println("")
}

// 0 where nothing is refused; else the number, and the values of the refusals that a page by itself can have.
fn answer(rt: &impl Print, a: Option<Refusal>) -> io::Result<()> {
    print!(rt; " {}", a.map_or(0, Refusal::number))?;
    match a {
        Some(Refusal::WrongPageLength(n)) => print!(rt; " {n}"),
        Some(
            Refusal::BadCrc {
                page,
                stored,
                computed,
            },
        ) => print!(rt; " {page:016x} {stored:08x} {computed:08x}"),
        Some(Refusal::BadTrailer(page)) => print!(rt; " {page:016x}"),
        Some(Refusal::BadMagic(magic)) => print!(rt; " {magic:08x}"),
        _ => Ok(()),
    }
}

fn trailer(rt: &impl Print, bytes: &[u8]) -> io::Result<()> {
    let found = PageTrailer::parse(bytes);
    answer(rt, found.err())?;
    match found {
        Ok(t) => trailer_fields(rt, t),
        Err(_) => Ok(()),
    }
}

fn trailer_fields(rt: &impl Print, t: PageTrailer) -> io::Result<()> {
    print!(rt;
        " rows {:02x} type {} {:02x} case {} lsn {:08x} crc {:08x} reserved {}",
        t.row_count,
        name(t.page_type),
        t.page_type.as_byte(),
        u8::from(t.case_variant),
        t.lsn,
        t.crc,
        u8::from(t.reserved_zero)
    )
}

fn superblock(rt: &impl Print, bytes: &[u8]) -> io::Result<()> {
    let found = Superblock::parse(bytes);
    answer(rt, found.err())?;
    match found {
        Ok(s) => superblock_fields(rt, s),
        Err(_) => Ok(()),
    }
}

fn superblock_fields(rt: &impl Print, s: Superblock) -> io::Result<()> {
    let FormatVersion { major, a, b } = s.format;
    print!(rt;
        " flags {:02x} variant {:02x} lsn {:08x} version {major}.{a}.{b} supported {} magic {:08x} hint {:08x} marker {}",
        s.flags_06,
        s.flags_06_variant_bits,
        s.current_lsn,
        u8::from(s.format.is_supported()),
        s.magic,
        s.page_count_hint,
        u8::from(s.sa_marker_present)
    )
}

fn name(t: PageType) -> &'static str {
    match t {
        PageType::Extent => "extent",
        PageType::Alloc => "alloc",
        PageType::Map => "map",
        PageType::Header => "header",
        PageType::Catalog => "catalog",
        PageType::Bootstrap => "bootstrap",
        PageType::Index => "index",
        PageType::Other(_) => "other",
    }
}

// What each of the 256 bytes is written back as, once it was read as a type.
pub(crate) fn type_bytes(rt: &impl Print) -> io::Result<()> {
    for b in 0..=255 {
        print!(rt; "{:02x}", PageType::from_byte(b).as_byte())?;
    }
    rt.println("")
}

// Which of the 256 bytes are case variants.
pub(crate) fn variants(rt: &impl Print) -> io::Result<()> {
    for b in 0..=255 {
        print!(rt; "{}", u8::from(page_type::case_variant(b)))?;
    }
    rt.println("")
}
