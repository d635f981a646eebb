// What a decoding is lent and told, before a byte of it is read.
ghost use Rattle.std.specs.Prelude.{◌≡◌, length};
ghost use Rattle.answers.specs.Answers.{answer_in};
ghost use Rattle.decode.specs.Decode.{entry_answer, early_of, early_written};

use answers::{Options, Refusal};

// What is answered before anything is decided: a refusal, or whether the page was never written; its zeros are copied then.
#[tactic(auto, using(crate::proofs::EntryCases::entering))]
pub(crate) fn early(
    stored: &[u8],
    shifted: usize,
    limit: usize,
    out: &mut [u8],
) -> Result<bool, Refusal>
    ensures answer { result ≡ early_of stored.now (length out.old) shifted limit }
    ensures written { out.new ≡ early_written result stored.now out.old }
{
    check_entry(stored.len(), out.len(), shifted, limit)?;
    let zeros = page::is_unallocated(stored);
    if zeros {
        numbers::copy(stored, out);
    }
    Ok(zeros)
}

// The lengths of the stored page, of `out` and of the shifted bytes, then the search limit: the first that is wrong refuses.
#[tactic(auto, unfolding(crate::specs::Decode::entry_answer))]
fn check_entry(stored: usize, out: usize, shifted: usize, limit: usize) -> Result<(), Refusal>
    ensures { answer_in result ≡ entry_answer stored out shifted limit }
{
    if stored != 4096 {
        return Err(Refusal::WrongPageLength(stored));
    }
    if out != 4096 {
        return Err(Refusal::WrongBufferLength(out));
    }
    if shifted != 4080 {
        return Err(Refusal::WrongBufferLength(shifted));
    }
    if !Options::limit_fits(limit) {
        return Err(Refusal::LimitOutOfRange(limit));
    }
    Ok(())
}
