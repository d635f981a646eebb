// A report line: the bytes that tell of a decoding, and their digits with a newline.
ghost use Rattle.std.specs.Prelude.{◌≡◌, ◌+◌, ◌≤◌, ◌∷◌, length};
ghost use Rattle.lists.specs.Pieces.{over};
ghost use Rattle.numbers.specs.Numbers.{big_bytes};
ghost use Rattle.reply.specs.Report.{report_most, fit_report, fit_reports, accepted_bytes, reported_into, reported_number, line_of};

use choice::Refused;
use digits::write_hex;
use numbers::Number;
use sector::Fit;
use verdict::Decoding;

// The bytes of a fit, of a refusal and of an accepted page, and the characters of the longest line.
const FIT: usize = 8;

const REFUSAL: usize = 9;

pub const REPORT_MOST: usize = REFUSAL + 3 + 8 * FIT + 1;

pub const REPLY_MOST: usize = 2 * REPORT_MOST + 1;

// The bytes of a report, into the front of `bytes`, and their number. Where the longest does not fit, nothing and 0.
pub fn put_report(number: u64, found: Result<Decoding, Refused>, bytes: &mut [u8]) -> usize
    ensures value { result ≡ reported_number number found bytes.old }
    ensures bytes_after { bytes.new ≡ reported_into number found bytes.old }
{
    if bytes.len() < REPORT_MOST {
        return 0;
    }
    match found {
        Ok(d) => {
            put_head(0, number, bytes);
            put_accepted(d, bytes);
            REPORT_MOST
        }
        Err(refused) => {
            put_head(refused.refusal.number(), number, bytes);
            REFUSAL
        }
    }
}

fn put_head(answer: u8, number: u64, bytes: &mut [u8])
    requires { report_most ≤ length bytes.old }
    ensures { bytes.new ≡ over bytes.old 0 (answer ∷ big_bytes 8 number) }
{
    bytes[0] = answer;
    number.put_big(bytes, 1);
}

fn put_accepted(d: Decoding, bytes: &mut [u8])
    requires { report_most ≤ length bytes.old }
    ensures { bytes.new ≡ over bytes.old 9 (accepted_bytes d) }
{
    let choice = d.choice;
    bytes[9] = choice.source.number();
    bytes[10] = choice.confidence.number();
    bytes[11] = choice.bv;
    put_fits(d.fits, bytes, 12);
    bytes[76] = (d.warnings.len % 256) as u8;
}

fn put_fits(fits: [Fit; 8], bytes: &mut [u8], at: usize)
    requires { at + 64 ≤ length bytes.old }
    ensures { bytes.new ≡ over bytes.old at (fit_reports fits 8) }
{
    for s in 0..8 {
        put_fit(fits[s], bytes, at + FIT * s);
    }
}

fn put_fit(f: Fit, bytes: &mut [u8], at: usize)
    requires { at + 8 ≤ length bytes.old }
    ensures { bytes.new ≡ over bytes.old at (fit_report f) }
{
    bytes[at] = f.step;
    f.peak.put_big(bytes, at + 1);
    f.runner_up.put_big(bytes, at + 3);
    bytes[at + 5] = u8::from(f.exact);
    f.tied.put_big(bytes, at + 6);
}

// The digits of bytes and a newline, into the front of `out`, and their number.
pub(crate) fn put_line(bytes: &[u8], out: &mut [u8]) -> usize
    requires { length bytes.now + length bytes.now + 1 ≤ length out.old }
    ensures value { result ≡ length (line_of bytes.now) }
    ensures out_after { out.new ≡ over out.old 0 (line_of bytes.now) }
{
    let n = write_hex(bytes, out);
    out[n] = b'\n';
    n + 1
}
