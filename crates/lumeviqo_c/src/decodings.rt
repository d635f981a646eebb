// The decodings: by their own scan, from a summary, with a supplied bv, for C.
ghost use Rattle.std.specs.Prelude.{true, length};
ghost use Rattle.summary.specs.Page.{bytes_of};
ghost use Rattle.parts.specs.Lent.{is_lent};
ghost use Rattle.lumeviqo.specs.Calls.{decoded, decoded_from, supplied, supplied_from, DecodingCall};

#[unsafe(no_mangle)]
pub extern "C" fn lumeviqo_decode(
    number: u64,
    stored: &[u8],
    anchors: &[u8],
    leniency: u8,
    t: u8,
    limit: usize,
    out: &mut [u8],
    answer: &mut [u8],
) -> usize
    ensures { DecodingCall true (decoded number stored.now anchors.now leniency t limit (length out.old))
        stored.now (bytes_of number stored.now)
        out.old out.new answer.old answer.new result }
{
    lumeviqo::lumeviqo_decode(number, stored, anchors, leniency, t, limit, out, answer)
}

#[unsafe(no_mangle)]
pub extern "C" fn lumeviqo_decode_summary(
    number: u64,
    stored: &[u8],
    fits: &[u8],
    shifted: &[u8],
    anchors: &[u8],
    leniency: u8,
    t: u8,
    limit: usize,
    out: &mut [u8],
    answer: &mut [u8],
) -> usize
    ensures { DecodingCall (is_lent fits.now)
        (decoded_from number stored.now fits.now shifted.now anchors.now leniency t limit
        (length out.old))
        stored.now shifted.now
        out.old out.new answer.old answer.new result }
{
    lumeviqo::lumeviqo_decode_summary(
        number, stored, fits, shifted, anchors, leniency, t, limit, out, answer,
    )
}

#[unsafe(no_mangle)]
pub extern "C" fn lumeviqo_decode_supplied(
    number: u64,
    stored: &[u8],
    bv: u8,
    leniency: u8,
    t: u8,
    limit: usize,
    out: &mut [u8],
    answer: &mut [u8],
) -> usize
    ensures { DecodingCall true (supplied number stored.now bv leniency t limit (length out.old))
        stored.now (bytes_of number stored.now)
        out.old out.new answer.old answer.new result }
{
    lumeviqo::lumeviqo_decode_supplied(number, stored, bv, leniency, t, limit, out, answer)
}

#[unsafe(no_mangle)]
pub extern "C" fn lumeviqo_decode_supplied_summary(
    number: u64,
    stored: &[u8],
    fits: &[u8],
    shifted: &[u8],
    bv: u8,
    leniency: u8,
    t: u8,
    limit: usize,
    out: &mut [u8],
    answer: &mut [u8],
) -> usize
    ensures { DecodingCall (is_lent fits.now)
        (supplied_from number stored.now fits.now shifted.now bv leniency t limit (length out.old))
        stored.now shifted.now
        out.old out.new answer.old answer.new result }
{
    lumeviqo::lumeviqo_decode_supplied_summary(
        number, stored, fits, shifted, bv, leniency, t, limit, out, answer,
    )
}
