// Runs the page reader on known pages and writes what it finds; `stdout` has what it must find. Both `stdin`, which describes the
// pages, and `stdout` are made by make-pages.py with Python's zlib, struct and bytes.find: no value in them comes from this code.
//
// A line that starts with # is a remark and is written as it stands. Any other line describes a page:
//
//     page number (16 digits), length (4), seed (8), then any number of parts, each an offset (4), a colon and bytes
//
// all hexadecimal, with a blank before each part. The bytes are those of the seed (describe.rt), written over by the parts.
#![tactic(auto)]

mod describe;
mod show;

use describe::{fill, number, patch};
use reading::read_full;
use std::io;

fn main(rt: HostRuntime) -> io::Result<()> {
    show::type_bytes(&rt)?;
    show::variants(&rt)?;
    let mut text = [0u8; 65536];
    let n = read_full(&mut rt.stdin(), &mut text)?;
    for line in text[..n].split(|b| *b == b'\n') {
        take_line(&rt, line)?;
    }
    Ok(())
}

fn take_line(rt: &impl Print, line: &[u8]) -> io::Result<()> {
    match line.first() {
        None => Ok(()),
        Some(b'#') => {
            rt.write_all(line)?;
            rt.write_all(b"\n")
        },
        Some(_) => take_page(rt, line),
    }
}

fn take_page(rt: &impl Print, line: &[u8]) -> io::Result<()> {
    // One byte more than a page has.
    let mut room = [0u8; 4097];
    fill(&mut room, number(line, 22, 8));
    patch(&mut room, &line[line.len().min(30)..]);
    let len = number(line, 17, 4) as usize;
    if len <= room.len() {
        show::findings(rt, number(line, 0, 16), &room[..len])?;
    }
    Ok(())
}
