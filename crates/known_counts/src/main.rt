// Sectors whose counts come near 255, where counts of classes stop, and others beside them, scanned by both engines: `quick` must answer as `sector` does,
// fit and shifted bytes. Of each family of sectors a line is printed: their length and what they are, how many, the least and the greatest peak and
// runner-up, a sum over all fits and shifted bytes in their order, and whether the two engines gave the same. What it must be was counted by make-stdout.py
// from document 01's rules.
#![tactic(auto)]

mod making;
mod telling;

use crate::making::{Family, Rest, make};
use crate::telling::Seen;
use std::io;

// Any page's: its sectors have eight offsets.
const NUMBER: u64 = 1000003;

// For a sector.
const ROOM: usize = 512;

// What a buffer holds before a scan, and what a blank would leave there.
const BEFORE: u8 = 165;

fn main(rt: HostRuntime) -> io::Result<()> {
    for n in [512, 496] {
        sectors(&rt, n)?;
    }
    every_length(&rt)
}

fn sectors(rt: &impl Print, n: usize) -> io::Result<()> {
    for on in [248, 254, 255, 256, 257] {
        for rest in [Rest::Off, Rest::Another] {
            for second in [false, true] {
                family(rt, n, 64, Family { on, second, rest })?;
            }
        }
    }
    // Each place is once the one that is off.
    let all_but_one = Family {
        on: n.saturating_sub(1),
        second: false,
        rest: Rest::Off,
    };
    family(rt, n, n, all_but_one)?;
    let half = Family {
        on: 256,
        second: true,
        rest: Rest::Random,
    };
    family(rt, n, 64, half)?;
    for rest in [Rest::Either, Rest::Triangular, Rest::Random] {
        family(rt, n, 64, none_on(rest))?;
    }
    Ok(())
}

fn none_on(rest: Rest) -> Family {
    Family {
        on: 0,
        second: false,
        rest,
    }
}

fn family(rt: &impl Print, n: usize, count: usize, family: Family) -> io::Result<()> {
    let mut seen = Seen::nothing();
    for k in 0..count {
        scan(&mut seen, family, n, k);
    }
    println!(rt; "{n} bytes, {family}: {count} sectors, {seen}")
}

fn every_length(rt: &impl Print) -> io::Result<()> {
    let family = none_on(Rest::Random);
    let mut seen = Seen::nothing();
    for n in 0..=ROOM {
        scan(&mut seen, family, n, n);
    }
    println!(rt; "512 bytes, {family}, of each length up to this: 513 sectors, {seen}")
}

// Sector k of a family, of n bytes.
fn scan(seen: &mut Seen, family: Family, n: usize, k: usize) {
    if n > ROOM {
        return;
    }
    let mut stored = [0u8; ROOM];
    let mut quick = [BEFORE; ROOM];
    let mut full = [BEFORE; ROOM];
    make(&mut stored[..n], family, k);
    let offset = sector::ap_offset(NUMBER, (k % 8) as u8);
    both(seen, &stored[..n], offset, &mut quick[..n], &mut full[..n]);
}

fn both(seen: &mut Seen, stored: &[u8], offset: u8, quick: &mut [u8], full: &mut [u8]) {
    let fit = quick::scan_sector(stored, offset, quick);
    let same = fit == sector::scan_sector(stored, offset, full) && *quick == *full;
    seen.note(fit, quick, same);
}
