// Document 01's page 1: zero data, type 0x45, a good CRC. Read strictly it is answered 5, with the candidates 248 to 255: each sector is
// exact and votes for another value. The expected line is the document's. Then a supplied bv with row count 0, at T 0 and at T 1: the original
// has T 4 alone, so these lines follow from document 01 by hand. So do those of a directory past 0x300, and of a limit out of range, from
// document 02: the original has the limit 768 alone.
#![tactic(auto)]

use answers::Options;
use choice::{Choice, Refused};
use std::io;

// Four offsets, from 0xF00 down.
const SLOTS: [u8; 8] = [0, 0x0F, 0, 0x0E, 0, 0x0D, 0, 0x0C];

fn main(rt: HostRuntime) -> io::Result<()> {
    ambiguous(&rt)?;
    for t in [0, 1] {
        supplied(&rt, t)?;
    }
    for limit in [791, 792, 2048, 2049] {
        chosen(&rt, limit)?;
    }
    for limit in [8, 7] {
        unallocated(&rt, limit)?;
    }
    Ok(())
}

fn ambiguous(rt: &impl Print) -> io::Result<()> {
    let mut page = [0u8; 4096];
    page[0xFF2] = 0x45;
    let crc = crc::crc32(&page[..0xFFC]);
    page[0xFFC..].copy_from_slice(&crc.to_le_bytes());
    let mut out = [0u8; 4096];
    if let Err(refused) = decode::decode_page(1, &page, &[], Options::strict(), &mut out) {
        print!(rt; " {}", refused.refusal.number())?;
        for bv in refused.candidates.items.into_iter().flatten() {
            print!(rt; " {bv}")?;
        }
    }
    rt.println("")
}

// Page 1 at bv 255, whose sector 0 is stored as it reads: slots at 0x50, and the row count 0, that of the trailer, six bytes before. At T 0 the row-count
// test verifies it (accepted, supplied, verified). At T 1 nothing does, since no sector votes for 255 (6, no source, no confidence).
fn supplied(rt: &impl Print, t: u8) -> io::Result<()> {
    let mut page = [0u8; 4096];
    page[0x50..0x58].copy_from_slice(&SLOTS);
    let mut out = [0u8; 4096];
    let options = Options::new(0, t, Options::SEARCH_LIMIT);
    let d = decode::decode_with_bv(1, 255, &page, options, &mut out);
    marks(rt, d.map(|d| d.choice))
}

// Shifted bytes that are zero but for slots at 0x310 and the row count 4, six bytes before. The seven sectors without them are exact, and vote for 0:
// that alone takes it (accepted, exact sectors, calibrated) while the limit leaves out the fourth slot, which ends at 0x317. From 792 on the row-count
// test passes too (accepted, trailer row count, verified). 2,049 is out of range (20, no source, no confidence).
fn chosen(rt: &impl Print, limit: usize) -> io::Result<()> {
    let mut shifted = [0u8; 4080];
    shifted[0x30A] = 4;
    shifted[0x310..0x318].copy_from_slice(&SLOTS);
    let options = Options::new(0, Options::MIN_TRAILER_COUNT, limit);
    marks(rt, choice::choose_bv(1, &shifted, &[], 4, options))
}

// An all-zero page is accepted at each limit in the range (accepted, unallocated, unallocated), and at no other (20, no source, no confidence).
fn unallocated(rt: &impl Print, limit: usize) -> io::Result<()> {
    let page = [0u8; 4096];
    let mut out = [0u8; 4096];
    let options = Options::new(0, Options::MIN_TRAILER_COUNT, limit);
    let d = decode::decode_page(1, &page, &[], options, &mut out);
    marks(rt, d.map(|d| d.choice))
}

// The answer, the source and the confidence; of a refusal the answer alone, and zeros.
fn marks(rt: &impl Print, made: Result<Choice, Refused>) -> io::Result<()> {
    let (answer, source, confidence) = match made {
        Ok(choice) => (0, choice.source.number(), choice.confidence.number()),
        Err(refused) => (refused.refusal.number(), 0, 0),
    };
    println!(rt; " {answer} {source} {confidence}")
}
