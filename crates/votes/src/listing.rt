// The candidates for bv, ascending.
ghost use Rattle.std.specs.Prelude.{◌≡◌, ◌&&◌, ◌||◌, ltb, leb};
ghost use Rattle.votes.specs.Votes.{is_verified, candidates_below, tabled};
ghost use Rattle.votes.specs.CountTables.{key_of, Assesses};

use crate::commonest::key;
use crate::{Candidate, Candidates};

// `counts` and `votes` are those of the shifted bytes, and `fourth` is the key of the fourth commonest value.
pub(crate) fn candidates(
    shifted: &[u8],
    anchors: &[u8],
    limit: usize,
    n: u8,
    t: u8,
    counts: &[u16],
    votes: &[u16],
    fourth: u32,
) -> Candidates
    requires { Assesses shifted.now counts.now votes.now fourth }
    ensures { result ≡ tabled (candidates_below limit shifted.now anchors.now n t 256) }
{
    let mut found = Candidates::none();
    for v in 0..256 {
        let bv = v as u8;
        let zeros = counts[v];
        let votes = votes[v];
        if is_candidate(zeros, votes, bv, fourth) {
            let verified = is_verified(shifted, limit, n, t, bv);
            let anchored = anchors.contains(&bv);
            found = found.with(Candidate {
                bv,
                zeros,
                votes,
                verified,
                anchored,
            });
        }
    }
    found
}

// Voted for, or one of the four commonest values that occur (the original's HISTOGRAM_CANDIDATES).
fn is_candidate(zeros: u16, votes: u16, v: u8, fourth: u32) -> bool
    ensures { result ≡ (ltb 0 votes || (ltb 0 zeros && leb fourth (key_of zeros v))) }
{
    0 < votes || (0 < zeros && fourth <= key(zeros, v))
}

// The row-count test, where the stored row count is not 0.
fn is_verified(shifted: &[u8], limit: usize, n: u8, t: u8, bv: u8) -> bool
    ensures { result ≡ is_verified limit shifted.now n t bv }
{
    n != 0 && slots::trailer_row_count_matches(shifted, bv, limit, n, t)
}
