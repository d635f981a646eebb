// How a sector is made: so many bytes on a line, and what the others are.
use std::fmt;
use std::fmt::{Display, Formatter};

// How many bytes lie on the line, whether every second place comes to it before the others do, and what those are that do not.
#[derive(Clone, Copy)]
pub struct Family {
    pub on: usize,
    pub second: bool,
    pub rest: Rest,
}

// Off the line; on another; on this one or one above it; off it by triangular numbers, for which all steps tie; random.
#[derive(Clone, Copy)]
pub enum Rest {
    Off,
    Another,
    Either,
    Triangular,
    Random,
}

impl Display for Family {
    fn fmt<W: fmt::Write>(&self, f: &mut Formatter<W>) -> fmt::Result {
        let second = if self.second {
            ", every second one"
        } else {
            ""
        };
        let rest = match self.rest {
            Rest::Off => "",
            Rest::Another => ", others on another",
            Rest::Either => ", others on it or above",
            Rest::Triangular => ", others triangular",
            Rest::Random => ", others random",
        };
        write!(f, "{} on a line{second}{rest}", self.on)
    }
}

// Two lines, and where the random numbers go on.
#[derive(Clone, Copy)]
struct Lines {
    first: u8,
    step: u8,
    other_first: u8,
    other_step: u8,
    random: u64,
}

// Sector k of a family.
pub(crate) fn make(stored: &mut [u8], family: Family, k: usize) {
    let n = stored.len();
    let lines = lines_of(k);
    let mut random = lines.random;
    for (i, b) in stored.iter_mut().enumerate() {
        random = next(random);
        *b = byte_of(family, lines, i, rank(family.second, i, n, k), byte(random));
    }
}

// The first line has another step in each of 256 sectors.
fn lines_of(k: usize) -> Lines {
    let a = next(k as u64 % 65536 + 1);
    let b = next(a);
    let c = next(b);
    Lines {
        first: byte(a),
        step: low(k).wrapping_mul(89),
        other_first: byte(b),
        other_step: byte(c),
        random: c,
    }
}

fn byte_of(family: Family, lines: Lines, i: usize, rank: usize, random: u8) -> u8 {
    let line = at(lines.first, lines.step, i);
    if rank < family.on {
        return line;
    }
    match family.rest {
        // By less than 128, so that under the step 128 away it is off the line too.
        Rest::Off => line.wrapping_add(random % 127 + 1),
        Rest::Another => at(lines.other_first, lines.other_step, i),
        Rest::Either => line.wrapping_add(random % 2),
        Rest::Triangular => line.wrapping_add(triangular(i)),
        Rest::Random => random,
    }
}

// When a place comes to lie on the line. Which is the first changes with the sector; of every second place, it is even for eight sectors, then odd for eight.
fn rank(second: bool, i: usize, n: usize, k: usize) -> usize {
    if n == 0 {
        return 0;
    }
    if !second {
        return (i % 512 + k % 512) % n;
    }
    let at = (i % 512 + k / 8 % 512) % n;
    if at % 2 == 0 {
        at / 2
    } else {
        at / 2 % 256 + n / 2
    }
}

fn at(first: u8, step: u8, i: usize) -> u8 {
    first.wrapping_add(low(i).wrapping_mul(step))
}

// i (i + 1) / 2.
fn triangular(i: usize) -> u8 {
    if i % 2 == 0 {
        low(i / 2).wrapping_mul(low(i).wrapping_add(1))
    } else {
        low(i).wrapping_mul(low(i / 2).wrapping_add(1))
    }
}

// Park and Miller's random numbers. The first remainder only keeps the numbers from running over.
fn next(random: u64) -> u64 {
    random % 2147483647 * 16807 % 2147483647
}

fn byte(random: u64) -> u8 {
    (random / 256 % 256) as u8
}

fn low(i: usize) -> u8 {
    (i % 256) as u8
}
