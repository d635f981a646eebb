// A frame: document 01, "page number (8 bytes, big-endian), option bits, T, n (a byte each), n anchors, 4,096 stored bytes", and request #109,
// the limit "as two big-endian bytes after T".
ghost use Rattle.std.specs.Prelude.{◌≡◌, ◌+◌, ◌≤◌, length};
ghost use Rattle.frame.specs.Frames.{head_size, least_frame, frame_most, frame_of, frame_in, frame_bytes, good_of, page_number, limit_of};

use digits::{digit_pair, digit_values, pair_up};

// The bytes before the anchors, and those of the page.
pub const HEAD: usize = 13;

pub const PAGE: usize = 4096;
// The longest frame has 255 anchors.
pub const FRAME_MOST: usize = HEAD + 255 + PAGE;
// What is to be kept of a line: one character more than the longest frame has, so that a longer one is known.
pub const LINE_ROOM: usize = 2 * FRAME_MOST + 1;

const FRAME_LEAST: usize = HEAD + PAGE;

// A frame's fields, with the number of anchors. Its bytes stand in a lent buffer.
#[derive(Clone, Copy, PartialEq, Eq)]
pub struct Frame {
    pub number: u64,
    pub options: u8,
    pub t: u8,
    pub limit: usize,
    pub anchors: usize,
}

// Reads a line; a frame's bytes go to the front of `bytes`, which needs room for the longest. Nothing is written for another line.
pub fn read_frame(line: &[u8], bytes: &mut [u8]) -> Option<Frame>
    ensures value { result ≡ frame_in (length bytes.old) line.now }
    ensures bytes_after { bytes.new ≡ frame_bytes line.now bytes.old }
{
    if bytes.len() < FRAME_MOST {
        return None;
    }
    if line.len() < 2 * FRAME_LEAST {
        return None;
    }
    if 2 * FRAME_MOST < line.len() {
        return None;
    }
    let mut values = value_room();
    read_digits(line, &mut values, bytes)
}

// Room for the values of the longest frame's digits. The contract gives the length alone.
fn value_room() -> [u8; 2 * FRAME_MOST]
    ensures { frame_most + frame_most ≡ length result }
{
    [0; 2 * FRAME_MOST]
}

fn read_digits(line: &[u8], values: &mut [u8], bytes: &mut [u8]) -> Option<Frame>
    requires { (least_frame + least_frame ≤ length line.now) × (length line.now ≤ length values.old) × (frame_most ≤ length bytes.old) }
    ensures value { result ≡ frame_of line.now }
    ensures bytes_after { bytes.new ≡ frame_bytes line.now bytes.old }
{
    if 16 <= digit_values(line, values) {
        return None;
    }
    let n = usize::from(digit_pair(values[24], values[25]));
    if line.len() != 2 * FRAME_LEAST + n + n {
        return None;
    }
    pair_up(&values[..line.len()], bytes);
    Some(fields(bytes, n))
}

fn fields(bytes: &[u8], n: usize) -> Frame
    requires { head_size ≤ length bytes.now }
    ensures { result ≡ good_of bytes.now n }
{
    Frame {
        number: page_number(bytes),
        options: bytes[8],
        t: bytes[9],
        limit: search_limit(bytes),
        anchors: n,
    }
}

// Eight bytes, the greatest first.
fn page_number(bytes: &[u8]) -> u64
    requires { 8 ≤ length bytes.now }
    ensures { result ≡ page_number bytes.now }
{
    u64::from_be_bytes([
        bytes[0], bytes[1], bytes[2], bytes[3], bytes[4], bytes[5], bytes[6], bytes[7],
    ])
}

// Two bytes, the greater first: any number of two bytes is read, also one that is no limit.
fn search_limit(bytes: &[u8]) -> usize
    requires { head_size ≤ length bytes.now }
    ensures { result ≡ limit_of bytes.now }
{
    usize::from(u16::from_be_bytes([bytes[10], bytes[11]]))
}
