// The decoding of a stored page by its own scan: that from a summary, at what the scan finds.
ghost use Rattle.std.specs.Prelude.{◌≡◌, length};
ghost use Rattle.answers.specs.Answers.{answer_in};
ghost use Rattle.page.specs.Trailer.{row_count_of};
ghost use Rattle.summary.specs.Page.{fits_of, bytes_of};
ghost use Rattle.verdict.specs.Verdict.{verdict_by, supplied_verdict};
ghost use Rattle.decode.specs.Decode.{own_decoding, own_supplied, own_written, delivered_of};

use crate::entries::early;
use crate::plaintext::deliver;
use answers::{Options, Refusal};
use choice::Refused;
use verdict::Decoding;

#[tactic(auto, using(crate::proofs::EntryCases::owning), unfolding(crate::specs::Decode::written_of, crate::specs::Decode::decoding_of))]
pub fn decode_page(
    number: u64,
    stored: &[u8],
    anchors: &[u8],
    options: Options,
    out: &mut [u8],
) -> Result<Decoding, Refused>
    ensures { (result ≡ own_decoding number stored.now anchors.now options (length out.old))
        × (out.new ≡ own_written number result stored.now out.old) }
{
    if early(stored, 4080, options.search_limit, out)? {
        return Ok(verdict::unallocated());
    }
    let found = page::check_written(number, stored);
    verdict::let_through(found, options)?;
    decode_written(number, found, stored, anchors, options, out)
}

#[tactic(auto, using(crate::proofs::EntryCases::owning), unfolding(crate::specs::Decode::written_of, crate::specs::Decode::supplied_decoding_of))]
pub fn decode_with_bv(
    number: u64,
    bv: u8,
    stored: &[u8],
    options: Options,
    out: &mut [u8],
) -> Result<Decoding, Refused>
    ensures { (result ≡ own_supplied number bv stored.now options (length out.old))
        × (out.new ≡ own_written number result stored.now out.old) }
{
    if early(stored, 4080, options.search_limit, out)? {
        return Ok(verdict::unallocated());
    }
    supply_written(number, bv, stored, options, out)
}

// A page that was written. Apart from what is answered early, as is the next: room for the shifted bytes is made as the function begins.
#[tactic(auto, using(crate::proofs::EntryCases::owning))]
fn decode_written(
    number: u64,
    found: Result<(), Refusal>,
    stored: &[u8],
    anchors: &[u8],
    options: Options,
    out: &mut [u8],
) -> Result<Decoding, Refused>
    requires { (length stored.now ≡ 4096) × (length out.old ≡ 4096) }
    ensures decided { result ≡ verdict_by number (answer_in found) (row_count_of stored.now) (fits_of number stored.now) (bytes_of number stored.now) anchors.now options }
    ensures delivered { out.new ≡ delivered_of result stored.now (bytes_of number stored.now) out.old }
{
    let mut shifted = room();
    let fits = summary::scan_page(number, stored, &mut shifted)?;
    let decoding = verdict::decide(
        number,
        found,
        stored[0xFF0],
        fits,
        &shifted,
        anchors,
        options,
    )?;
    deliver(decoding.choice.bv, stored, &shifted, out);
    Ok(decoding)
}

#[tactic(auto, using(crate::proofs::EntryCases::owning))]
fn supply_written(
    number: u64,
    bv: u8,
    stored: &[u8],
    options: Options,
    out: &mut [u8],
) -> Result<Decoding, Refused>
    requires { (length stored.now ≡ 4096) × (length out.old ≡ 4096) }
    ensures decided { result ≡ supplied_verdict number bv (row_count_of stored.now) (fits_of number stored.now) (bytes_of number stored.now) options }
    ensures delivered { out.new ≡ delivered_of result stored.now (bytes_of number stored.now) out.old }
{
    let mut shifted = room();
    let fits = summary::scan_page(number, stored, &mut shifted)?;
    let decoding = verdict::decide_supplied(number, bv, stored[0xFF0], fits, &shifted, options)?;
    deliver(decoding.choice.bv, stored, &shifted, out);
    Ok(decoding)
}

// Room for the shifted bytes. A caller knows its length alone, so that 4,080 zeros stand in no later goal.
fn room() -> [u8; 4080]
    ensures { length result ≡ 4080 }
{
    [0u8; 4080]
}
