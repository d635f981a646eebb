// The lines of a block answered, with no input or output.
ghost use Rattle.std.specs.Prelude.{◌≡◌, ◌+◌, ◌≤◌, length, take};
ghost use Rattle.lines.specs.Input.{last_reply};
ghost use Rattle.lines.specs.Steps.{Replied, Stepped};
ghost use Rattle.frame.specs.Frames.{line_room};
ghost use Rattle.reply.specs.Report.{reply_most};
ghost use Rattle.reply.specs.Reply.{reply_of};

use lines::{Next, Step, next_line};
use reply::{REPLY_MOST, reply_to};

// Answers the lines of a block from `from` on, as far as the output has room, and keeps the unfinished one. By place: where the next line begins is
// known when this one has ended.
pub(crate) fn step(line: &mut [u8], kept: usize, block: &[u8], from: usize, out: &mut [u8]) -> Step
    requires { (line_room ≤ length line.old) × (kept ≤ length line.old) }
    ensures { Stepped reply_of reply_most line.old kept block.now from line.new out.new result }
{
    let mut at = from;
    let mut len = kept;
    let mut waiting: usize = 0;
    while at < block.len() {
        if out.len() - waiting < REPLY_MOST {
            return Step {
                from: at,
                kept: len,
                waiting,
            };
        }
        match next_line(line, len, block, at) {
            Next::Here { end } => {
                waiting = answer(&block[at..end], out, waiting);
                at = end + 1;
            },
            Next::Begun { end, kept } => {
                waiting = answer(&line[..kept], out, waiting);
                at = end + 1;
            },
            Next::Unfinished { kept } => {
                return Step {
                    from: block.len(),
                    kept,
                    waiting,
                };
            },
        }
        len = 0;
    }
    Step {
        from: at,
        kept: len,
        waiting,
    }
}

// The end of input: "nothing after the last newline is none".
pub(crate) fn finish(line: &[u8], kept: usize, out: &mut [u8]) -> usize
    requires { (kept ≤ length line.now) × (reply_most ≤ length out.old) }
    ensures upper_bound { result ≤ length out.new }
    ensures out_after { take result out.new ≡ last_reply reply_of (take kept line.now) }
{
    let empty = kept == 0;
    if empty {
        return 0;
    }
    answer(&line[..kept], out, 0)
}

fn answer(line: &[u8], out: &mut [u8], at: usize) -> usize
    requires { at + reply_most ≤ length out.old }
    ensures { Replied reply_of line.now out.old at out.new result }
{
    let n = reply_to(line, &mut out[at..]);
    at + n
}
