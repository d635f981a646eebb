// The decodings: by their own scan, from a summary, with a supplied bv.
ghost use Rattle.std.specs.Prelude.{true, length};
ghost use Rattle.summary.specs.Page.{bytes_of};
ghost use Rattle.parts.specs.Lent.{is_lent};
ghost use Rattle.lumeviqo.specs.Calls.{decoded, decoded_from, supplied, supplied_from, DecodingCall};

use answers::Options;
use layout::DECODING_SIZE;

// Each of the four asks for its room itself: of what a closure that is passed on writes to `out`, a proof would know nothing.
pub fn lumeviqo_decode(
    number: u64,
    stored: &[u8],
    anchors: &[u8],
    leniency: u8,
    t: u8,
    limit: usize,
    out: &mut [u8],
    answer: &mut [u8],
) -> usize
    ensures { DecodingCall true (decoded number stored.now anchors.now leniency t limit (length out.old))
        stored.now (bytes_of number stored.now)
        out.old out.new answer.old answer.new result }
{
    if answer.len() < DECODING_SIZE {
        return 0;
    }
    let options = Options::new(leniency, t, limit);
    let found = decode::decode_page(number, stored, anchors, options, out);
    layout::write(answer, &found)
}

pub fn lumeviqo_decode_summary(
    number: u64,
    stored: &[u8],
    fits: &[u8],
    shifted: &[u8],
    anchors: &[u8],
    leniency: u8,
    t: u8,
    limit: usize,
    out: &mut [u8],
    answer: &mut [u8],
) -> usize
    ensures { DecodingCall (is_lent fits.now)
        (decoded_from number stored.now fits.now shifted.now anchors.now leniency t limit
        (length out.old))
        stored.now shifted.now
        out.old out.new answer.old answer.new result }
{
    if answer.len() < DECODING_SIZE {
        return 0;
    }
    let Some(lent) = parts::fits_lent(fits) else {
        return 0;
    };
    let options = Options::new(leniency, t, limit);
    let found = decode::decode_summary(number, stored, lent, shifted, anchors, options, out);
    layout::write(answer, &found)
}

pub fn lumeviqo_decode_supplied(
    number: u64,
    stored: &[u8],
    bv: u8,
    leniency: u8,
    t: u8,
    limit: usize,
    out: &mut [u8],
    answer: &mut [u8],
) -> usize
    ensures { DecodingCall true (supplied number stored.now bv leniency t limit (length out.old))
        stored.now (bytes_of number stored.now)
        out.old out.new answer.old answer.new result }
{
    if answer.len() < DECODING_SIZE {
        return 0;
    }
    let options = Options::new(leniency, t, limit);
    let found = decode::decode_with_bv(number, bv, stored, options, out);
    layout::write(answer, &found)
}

pub fn lumeviqo_decode_supplied_summary(
    number: u64,
    stored: &[u8],
    fits: &[u8],
    shifted: &[u8],
    bv: u8,
    leniency: u8,
    t: u8,
    limit: usize,
    out: &mut [u8],
    answer: &mut [u8],
) -> usize
    ensures { DecodingCall (is_lent fits.now)
        (supplied_from number stored.now fits.now shifted.now bv leniency t limit (length out.old))
        stored.now shifted.now
        out.old out.new answer.old answer.new result }
{
    if answer.len() < DECODING_SIZE {
        return 0;
    }
    let Some(lent) = parts::fits_lent(fits) else {
        return 0;
    };
    let options = Options::new(leniency, t, limit);
    let found = decode::decode_summary_with_bv(number, bv, stored, lent, shifted, options, out);
    layout::write(answer, &found)
}
