// The reply to a line.
ghost use Rattle.std.specs.Prelude.{◌≡◌, ◌+◌, ◌≤◌, length};
ghost use Rattle.lists.specs.Pieces.{over};
ghost use Rattle.answers.specs.Settings.{options_of};
ghost use Rattle.frame.specs.Frames.{least_frame, frame_most, anchors_of, stored_of};
ghost use Rattle.reply.specs.Report.{report_most, reply_most, report_line};
ghost use Rattle.reply.specs.Reply.{frame_decoding, replied_into, replied_number};

use crate::writing::{REPLY_MOST, REPORT_MOST, put_line, put_report};
use answers::{Options, Refusal};
use choice::Refused;
use decode::decode_page;
use frame::{FRAME_MOST, Frame, HEAD, PAGE, read_frame};
use verdict::Decoding;

// The line that answers `line`, with its newline, into the front of `out`, and its length. Where the longest does not fit, nothing and 0.
pub fn reply_to(line: &[u8], out: &mut [u8]) -> usize
    ensures value { result ≡ replied_number line.now out.old }
    ensures out_after { out.new ≡ replied_into line.now out.old }
{
    if out.len() < REPLY_MOST {
        return 0;
    }
    let mut bytes = frame_room();
    let Some(frame) = read_frame(line, &mut bytes) else {
        return put_line(&[Refusal::MalformedLine.number()], out);
    };
    put_reply(frame.number, decode_frame(frame, &bytes), out)
}

// Room for the longest frame. The contract gives the length alone.
fn frame_room() -> [u8; FRAME_MOST]
    ensures { frame_most ≡ length result }
{
    [0; FRAME_MOST]
}

fn decode_frame(frame: Frame, bytes: &[u8]) -> Result<Decoding, Refused>
    requires { least_frame + frame.anchors ≤ length bytes.now }
    ensures { result ≡ frame_decoding frame.number (stored_of frame.anchors bytes.now) (anchors_of frame.anchors bytes.now) (options_of frame.options frame.t frame.limit) }
{
    let mut plain = page_room();
    let start = HEAD + frame.anchors;
    let end = start + PAGE;
    decode_page(
        frame.number,
        &bytes[start..end],
        &bytes[HEAD..start],
        Options::new(frame.options, frame.t, frame.limit),
        &mut plain,
    )
}

// Room for the plaintext, which a report leaves out. The contract gives the length alone.
fn page_room() -> [u8; PAGE]
    ensures { 4096 ≡ length result }
{
    [0; PAGE]
}

fn put_reply(number: u64, found: Result<Decoding, Refused>, out: &mut [u8]) -> usize
    requires { reply_most ≤ length out.old }
    ensures value { result ≡ length (report_line number found) }
    ensures out_after { out.new ≡ over out.old 0 (report_line number found) }
{
    let mut report = report_room();
    let n = put_report(number, found, &mut report);
    put_line(&report[..n], out)
}

// Room for a report's bytes. The contract gives the length alone.
fn report_room() -> [u8; REPORT_MOST]
    ensures { report_most ≡ length result }
{
    [0; REPORT_MOST]
}
