// The decoding of a stored page from its summary, own or alien.
ghost use Rattle.std.specs.Prelude.{◌≡◌, length};
ghost use Rattle.decode.specs.Decode.{decoding_into, supplied_decoding_of, written_of};

use crate::entries::early;
use crate::plaintext::deliver;
use answers::Options;
use choice::Refused;
use sector::Fit;
use verdict::Decoding;

// `out` is written when the page is accepted, and not before.
#[tactic(auto, using(crate::proofs::EntryCases::ending), unfolding(crate::specs::Decode::written_of, crate::specs::Decode::decoding_of))]
pub fn decode_summary(
    number: u64,
    stored: &[u8],
    fits: [Fit; 8],
    shifted: &[u8],
    anchors: &[u8],
    options: Options,
    out: &mut [u8],
) -> Result<Decoding, Refused>
    ensures { (result ≡ decoding_into number stored.now fits shifted.now anchors.now options out.old)
        × (out.new ≡ written_of result stored.now shifted.now out.old) }
{
    if early(stored, shifted.len(), options.search_limit, out)? {
        return Ok(verdict::unallocated());
    }
    let found = page::check_written(number, stored);
    let decoding = verdict::decide(
        number,
        found,
        stored[0xFF0],
        fits,
        shifted,
        anchors,
        options,
    )?;
    deliver(decoding.choice.bv, stored, shifted, out);
    Ok(decoding)
}

// The same with a bv that the caller has: nothing is checked but what the page says for it.
#[tactic(auto, using(crate::proofs::EntryCases::ending), unfolding(crate::specs::Decode::written_of, crate::specs::Decode::supplied_decoding_of))]
pub fn decode_summary_with_bv(
    number: u64,
    bv: u8,
    stored: &[u8],
    fits: [Fit; 8],
    shifted: &[u8],
    options: Options,
    out: &mut [u8],
) -> Result<Decoding, Refused>
    ensures { (result ≡ supplied_decoding_of number bv stored.now fits shifted.now options (length out.old))
        × (out.new ≡ written_of result stored.now shifted.now out.old) }
{
    if early(stored, shifted.len(), options.search_limit, out)? {
        return Ok(verdict::unallocated());
    }
    let decoding = verdict::decide_supplied(number, bv, stored[0xFF0], fits, shifted, options)?;
    deliver(decoding.choice.bv, stored, shifted, out);
    Ok(decoding)
}
