// Sectors whose bytes lie on a line, or leave it at one byte or from one byte on, scanned by both engines: `quick` must answer as `sector` does, fit and
// shifted bytes. What is printed of a sector: its length, the step of the line, the first byte that is off it and the end of those that are, then the fit, a
// sum over the shifted bytes in their order, and whether the two engines gave the same. What it must be was counted by make-stdout.py from document 01's rules.
#![tactic(auto)]

use std::io;

// For a sector and a byte.
const ROOM: usize = 513;

// What a buffer holds before a scan, and what a blank must leave there.
const BEFORE: u8 = 165;

fn main(rt: HostRuntime) -> io::Result<()> {
    for n in [0, 1, 2, 3, 5, 63, 64, 65, 495, 496, 511, 512, 513] {
        for step in [0, 1, 127, 128, 129, 255] {
            lines(&rt, n, step)?;
        }
    }
    other_room(&rt)
}

// The line whole, with one byte off it at each place that the sector has, and left for another line.
fn lines(rt: &impl Print, n: usize, step: u8) -> io::Result<()> {
    scan(rt, n, step, n, n)?;
    for at in [2, 3, 63, 64, 65, 127, 128, 495, 510, 511] {
        if at < n {
            scan(rt, n, step, at, at + 1)?;
        }
    }
    for at in [3, 64, 128] {
        if at < n {
            scan(rt, n, step, at, n)?;
        }
    }
    Ok(())
}

fn scan(rt: &impl Print, n: usize, step: u8, from: usize, to: usize) -> io::Result<()> {
    if n > ROOM {
        return Ok(());
    }
    let mut stored = [0u8; ROOM];
    lay(&mut stored, step);
    // Some bytes one too high.
    for b in stored.iter_mut().take(to).skip(from) {
        *b = b.wrapping_add(1);
    }
    let mut quick = [BEFORE; ROOM];
    let mut full = [BEFORE; ROOM];
    print!(rt; " {n} {step} {from} {to}")?;
    both(rt, &stored[..n], &mut quick[..n], &mut full[..n])
}

// Buffers that are a byte longer than the sector: a blank, and they stay.
fn other_room(rt: &impl Print) -> io::Result<()> {
    let mut stored = [0u8; ROOM - 1];
    lay(&mut stored, 1);
    let mut quick = [BEFORE; ROOM];
    let mut full = [BEFORE; ROOM];
    rt.print(" other room")?;
    both(rt, &stored, &mut quick, &mut full)
}

// A line from 17 on.
fn lay(stored: &mut [u8], step: u8) {
    let mut next = 17u8;
    for b in stored {
        *b = next;
        next = next.wrapping_add(step);
    }
}

fn both(rt: &impl Print, stored: &[u8], quick: &mut [u8], full: &mut [u8]) -> io::Result<()> {
    let fit = quick::scan_sector(stored, 200, quick);
    let same = fit == sector::scan_sector(stored, 200, full) && *quick == *full;
    let verdict = if same { "same" } else { "differ" };
    println!(rt;
        ": {} {} {} {} {} {} {verdict}",
        fit.step,
        fit.peak,
        fit.runner_up,
        u8::from(fit.exact),
        fit.tied,
        sum(quick)
    )
}

// Each byte counts by its place. The first remainder only keeps the numbers from running over.
fn sum(bytes: &[u8]) -> u64 {
    bytes
        .iter()
        .fold(0, |sum, b| (sum % 65536 * 31 + u64::from(*b)) % 65521)
}
