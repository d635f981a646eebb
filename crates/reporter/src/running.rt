// The input and the output: it reads, steps and writes. What was written is counted, so that no write can be left out, made twice, or go on after one that
// failed.
ghost use Rattle.std.specs.Prelude.{◌≡◌, ◌≤◌, IfOk, IfSome, length};
ghost use Rattle.lines.specs.Runs.{sent_count, Written};
ghost use Rattle.frame.specs.Frames.{line_room};
ghost use Rattle.reply.specs.Report.{reply_most};
ghost use Rattle.reply.specs.Reply.{reply_of};
ghost use Rattle.reporter.specs.Turns.{BlockAnswered, end_count};

use crate::blocks::{finish, step};
use crate::failing::{Failure, tell};
use frame::LINE_ROOM;
use std::io::Read;

// What goes from block to block: how many characters of an unfinished line are kept, and how many were written in all, modulo 2^64.
#[derive(Clone, Copy)]
struct Turn {
    kept: usize,
    sent: u64,
}

// Answers standard input on standard output. It gives how many characters were written in all, modulo 2^64, if reading and writing went well.
pub fn run(rt: &(impl Input + Print + Eprint)) -> Option<u64>
    ensures { IfSome result (λ sent. Written reply_of sent) }
{
    let mut line = line_room();
    let mut block = [0u8; 65536];
    let mut out = [0u8; 65536];
    match each_block(rt, &mut rt.reader(), &mut line, &mut block, &mut out) {
        Ok(sent) => Some(sent),
        Err(failure) => {
            tell(rt, failure);
            None
        },
    }
}

// Room for what is kept of a line. The contract gives the length alone.
fn line_room() -> [u8; LINE_ROOM]
    ensures { line_room ≡ length result }
{
    [0; LINE_ROOM]
}

// Block after block. The turns are counted, since nothing says that the input ends: no run uses them up.
fn each_block(
    rt: &impl Print,
    input: &mut impl Read,
    line: &mut [u8],
    block: &mut [u8],
    out: &mut [u8],
) -> Result<u64, Failure>
    requires { (line_room ≤ length line.old) × (reply_most ≤ length out.old) }
    ensures { IfOk result (λ sent. Written reply_of sent) }
{
    let mut kept = 0usize;
    let mut sent = 0u64;
    for _turn in 0..u64::MAX {
        let got = input.read(block).map_err(|e| Failure::Input(e))?;
        if got == 0 {
            return end_input(rt, line, kept, out, sent);
        }
        let turn = answer_block(rt, line, kept, &block[..got], out, sent)?;
        kept = turn.kept;
        sent = turn.sent;
    }
    Err(Failure::Unended)
}

fn end_input(
    rt: &impl Print,
    line: &[u8],
    kept: usize,
    out: &mut [u8],
    sent: u64,
) -> Result<u64, Failure>
    requires { (kept ≤ length line.now) × (reply_most ≤ length out.old) }
    ensures { IfOk result (λ count. count ≡ end_count line.now kept sent) }
{
    let n = finish(line, kept, out);
    put(rt, &out[..n], sent)
}

// A block: steps, and what each puts out is written before the next. By place: a step says how far it came.
fn answer_block(
    rt: &impl Print,
    line: &mut [u8],
    kept: usize,
    block: &[u8],
    out: &mut [u8],
    before: u64,
) -> Result<Turn, Failure>
    requires { (line_room ≤ length line.old) × (reply_most ≤ length out.old) × (kept ≤ length line.old) }
    ensures kept_in_bounds { IfOk result (λ turn. turn.kept ≤ length line.new) }
    ensures block_answered { IfOk result (λ turn. BlockAnswered line.old kept block.now line.new before turn) }
{
    let mut from = 0usize;
    let mut turn = Turn { kept, sent: before };
    while from < block.len() {
        let s = step(line, turn.kept, block, from, out);
        let sent = put(rt, &out[..s.waiting], turn.sent)?;
        from = s.from;
        turn = Turn { kept: s.kept, sent };
    }
    Ok(turn)
}

// Writes all of a part, and counts it.
fn put(rt: &impl Print, part: &[u8], sent: u64) -> Result<u64, Failure>
    ensures { IfOk result (λ count. count ≡ sent_count sent (length part.now)) }
{
    rt.write_all(part).map_err(|e| Failure::Output(e))?;
    Ok(sent.wrapping_add(part.len() as u64))
}
