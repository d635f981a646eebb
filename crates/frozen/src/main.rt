// Frozen answers: questions put to the functions that `lumeviqo_c` hands on to C, and what the original answered to each. A question is a head of 30 bytes,
// then a page, anchors and a sector's bytes, each as long as the head says. The head, the least byte of a number first:
//
//   0   1  what is asked, by the numbers of `Asked` below       20  2  sector or row
//   1   8  page number                                          22  2  length of the page
//   9   2  leniency, T                                          24  2  length of the anchors
//   11  8  search limit                                         26  2  length of the sector's bytes
//   19  1  bv                                                   28  2  length of the buffer for plaintext or shifted bytes
//
// An answer is a line: the layout of include/lumeviqo.h in hexadecimal, then the CRC-32 of each buffer that the function may write to.
// stdin and stdout were made beside the original, by compare/driver/src/bin/freeze.rs; the program needs no original.
#![tactic(auto)]

ghost use Rattle.std.specs.Prelude.{◌≤◌, length};

use layout::SCAN_SIZE;
use lumeviqo::{
    lumeviqo_crc32, lumeviqo_decode, lumeviqo_decode_summary, lumeviqo_decode_supplied,
    lumeviqo_decode_supplied_summary, lumeviqo_integrity, lumeviqo_parse, lumeviqo_replace,
    lumeviqo_row, lumeviqo_row_count, lumeviqo_rows, lumeviqo_scan, lumeviqo_superblock,
    lumeviqo_superblock_checked, lumeviqo_trailer,
};
use parse_layout::PARSE_SIZE;
use parts::ANSWER_SIZE;
use reading::read_full;
use std::io;
use std::io::Read;

// What is asked.
#[derive(Clone, Copy)]
enum Asked {
    Crc,
    Trailer,
    Integrity,
    Superblock,
    CheckedSuperblock,
    Scan,
    Replacement,
    Decoding,
    Supplied,
    Parse,
    RowCount,
    Row,
    Rows,
    SuppliedSummary,
}

#[derive(Drop)]
struct UnknownNumber;

impl TryFrom<u8> for Asked {
    type Error = UnknownNumber;

    fn try_from(number: u8) -> Result<Self, UnknownNumber> {
        match number {
            1 => Ok(Asked::Crc),
            2 => Ok(Asked::Trailer),
            3 => Ok(Asked::Integrity),
            4 => Ok(Asked::Superblock),
            5 => Ok(Asked::CheckedSuperblock),
            6 => Ok(Asked::Scan),
            7 => Ok(Asked::Replacement),
            8 => Ok(Asked::Decoding),
            9 => Ok(Asked::Supplied),
            10 => Ok(Asked::Parse),
            11 => Ok(Asked::RowCount),
            12 => Ok(Asked::Row),
            13 => Ok(Asked::Rows),
            14 => Ok(Asked::SuppliedSummary),
            _ => Err(UnknownNumber),
        }
    }
}

// What a question is about. `place` is a sector or a row.
#[derive(Clone, Copy)]
struct Question<'a> {
    number: u64,
    leniency: u8,
    t: u8,
    limit: usize,
    bv: u8,
    place: usize,
    room: usize,
    page: &'a [u8],
    anchors: &'a [u8],
    bytes: &'a [u8],
}

// Question after question. The turns are counted, since nothing says that the input ends: no run uses them up.
fn main(rt: HostRuntime) -> io::Result<()> {
    for _ in 0..u64::MAX {
        if !next(&rt, &mut rt.stdin())? {
            break;
        }
    }
    Ok(())
}

// Reads a question and answers it; false at the end of input.
fn next(rt: &impl Print, input: &mut impl Read) -> io::Result<bool> {
    let mut head = [0u8; 30];
    if read_full(input, &mut head)? < head.len() {
        return Ok(false);
    }
    let mut page = [0u8; 65536];
    let mut anchors = [0u8; 4096];
    let mut bytes = [0u8; 4096];
    let question = Question {
        number: u64::from_le_bytes(part(&head, 1)),
        leniency: head[9],
        t: head[10],
        limit: u64::from_le_bytes(part(&head, 11)) as usize,
        bv: head[19],
        place: short(&head, 20),
        room: short(&head, 28),
        page: read(input, &mut page, short(&head, 22))?,
        anchors: read(input, &mut anchors, short(&head, 24))?,
        bytes: read(input, &mut bytes, short(&head, 26))?,
    };
    match Asked::try_from(head[0]) {
        Ok(asked) => answer(rt, asked, question)?,
        Err(UnknownNumber) => rt.print("?")?,
    }
    rt.println("")?;
    Ok(true)
}

fn short(head: &[u8; 30], at: usize) -> usize {
    usize::from(u16::from_le_bytes(part(head, at)))
}

fn part<const N: usize>(head: &[u8; 30], at: usize) -> [u8; N] {
    head.get(at..)
        .and_then(|rest| rest.first_chunk())
        .copied()
        .unwrap_or([0; N])
}

// The next n bytes of the input, in the front of a buffer.
fn read<'a>(input: &mut impl Read, buffer: &'a mut [u8], n: usize) -> io::Result<&'a mut [u8]> {
    let part = front(buffer, n);
    read_full(input, part)?;
    Ok(part)
}

// The first n bytes, or all where there are fewer.
fn front(buffer: &mut [u8], n: usize) -> &mut [u8]
    ensures { length result.now ≤ n }
{
    let n = n.min(buffer.len());
    &mut buffer[..n]
}

fn answer(rt: &impl Print, asked: Asked, q: Question) -> io::Result<()> {
    match asked {
        Asked::Crc => crc(rt, q.page),
        Asked::Trailer => told(rt, |answer| lumeviqo_trailer(q.page, answer)),
        Asked::Integrity => told(rt, |answer| lumeviqo_integrity(q.number, q.page, answer)),
        Asked::Superblock => told(rt, |answer| lumeviqo_superblock(q.page, answer)),
        Asked::CheckedSuperblock => told(rt, |answer| lumeviqo_superblock_checked(q.page, answer)),
        Asked::Scan => scan(rt, q),
        Asked::Replacement => replacement(rt, q),
        Asked::Decoding => decoding(rt, q),
        Asked::Supplied => supplied(rt, q),
        Asked::Parse => told(rt, |answer| {
            lumeviqo_parse(q.number, q.page, q.leniency, q.limit, answer)
        }),
        Asked::RowCount => told(rt, |answer| {
            lumeviqo_row_count(q.number, q.page, q.leniency, q.limit, answer)
        }),
        Asked::Row => told(rt, |answer| {
            lumeviqo_row(q.number, q.page, q.leniency, q.limit, q.place, answer)
        }),
        Asked::Rows => told(rt, |answer| {
            lumeviqo_rows(q.number, q.page, q.leniency, q.limit, answer)
        }),
        Asked::SuppliedSummary => supplied_summary(rt, q),
    }
}

fn scan(rt: &impl Print, q: Question) -> io::Result<()> {
    let mut shifted = [0u8; 4096];
    let shifted = front(&mut shifted, q.room);
    told(
        rt,
        |answer| lumeviqo_scan(q.number, q.page, shifted, answer),
    )?;
    crc(rt, shifted)
}

// A scan, the replacement, and the decoding from the summary as it then stands.
fn replacement(rt: &impl Print, q: Question) -> io::Result<()> {
    // A copy, since it is written to.
    let mut room = [0u8; 65536];
    let page = front(&mut room, q.page.len());
    let n = page.len();
    page.copy_from_slice(&q.page[..n]);
    let mut shifted = [0u8; 4080];
    let mut scanned = [0u8; SCAN_SIZE];
    let mut replaced = [0u8; SCAN_SIZE];
    lumeviqo_scan(q.number, page, &mut shifted, &mut scanned);
    let n = lumeviqo_replace(
        q.number,
        page,
        &mut shifted,
        &scanned[ANSWER_SIZE..],
        q.place,
        q.bytes,
        &mut replaced,
    );
    tell(rt, &mut replaced, n)?;
    crc(rt, page)?;
    crc(rt, &shifted)?;
    rt.print(" ")?;
    let mut out = [0u8; 4096];
    told(rt, |answer| {
        lumeviqo_decode_summary(
            q.number,
            page,
            &replaced[ANSWER_SIZE..],
            &shifted,
            q.anchors,
            q.leniency,
            q.t,
            q.limit,
            &mut out,
            answer,
        )
    })?;
    crc(rt, &out)
}

fn decoding(rt: &impl Print, q: Question) -> io::Result<()> {
    let mut out = [0u8; 4096];
    let out = front(&mut out, q.room);
    told(rt, |answer| {
        lumeviqo_decode(
            q.number, q.page, q.anchors, q.leniency, q.t, q.limit, out, answer,
        )
    })?;
    crc(rt, out)
}

fn supplied(rt: &impl Print, q: Question) -> io::Result<()> {
    let mut out = [0u8; 4096];
    told(rt, |answer| {
        lumeviqo_decode_supplied(
            q.number, q.page, q.bv, q.leniency, q.t, q.limit, &mut out, answer,
        )
    })?;
    crc(rt, &out)
}

// A scan, and the decoding from its summary with the bv of the question.
fn supplied_summary(rt: &impl Print, q: Question) -> io::Result<()> {
    let mut shifted = [0u8; 4080];
    let mut scanned = [0u8; SCAN_SIZE];
    lumeviqo_scan(q.number, q.page, &mut shifted, &mut scanned);
    let mut out = [0u8; 4096];
    told(rt, |answer| {
        lumeviqo_decode_supplied_summary(
            q.number,
            q.page,
            &scanned[ANSWER_SIZE..],
            &shifted,
            q.bv,
            q.leniency,
            q.t,
            q.limit,
            &mut out,
            answer,
        )
    })?;
    crc(rt, &out)
}

// What a call writes into room for the longest layout, a parse.
fn told<F: FnOnce(&mut [u8]) -> usize>(rt: &impl Print, call: F) -> io::Result<()>
    requires { F.IsAlwaysCallable call }
{
    let mut answer = [0u8; PARSE_SIZE];
    let n = call(&mut answer);
    tell(rt, &mut answer, n)
}

// The first n bytes of a layout.
fn tell(rt: &impl Print, answer: &mut [u8], n: usize) -> io::Result<()> {
    let mut digits = [0u8; 65536];
    let n = digits::write_hex(front(answer, n), &mut digits);
    rt.write_all(front(&mut digits, n))
}

fn crc(rt: &impl Print, bytes: &[u8]) -> io::Result<()> {
    let crc = lumeviqo_crc32(bytes);
    print!(rt; " {crc:08x}")
}
