// What speaks for each value of bv: the votes of exact sectors, the counts of the shifted bytes, the row-count test, anchors. Document 01,
// "Choosing bv"; `assess` of the original's ap.rs. It counts bytes in four tables at once, since a count that follows itself waits for the store
// before it, and finds the four commonest values in one pass. No plaintext is made to test a candidate.
#![tactic(auto)]

mod commonest;
mod counts;
mod listing;
mod polls;

ghost use Rattle.std.specs.Prelude.{◌≡◌};
ghost use Rattle.votes.specs.Votes.{no_candidates, with_candidate, assessed};

pub use polls::{Poll, votes_for};

// A value that bv may have, and what speaks for it.
#[derive(Clone, Copy, PartialEq, Eq, Default)]
pub struct Candidate {
    pub bv: u8,
    pub zeros: u16,
    pub votes: u16,
    pub verified: bool,
    pub anchored: bool,
}

// The candidates, ascending. No 4,080 bytes have more than eight: `votes/Eight.at-most-eight`.
#[derive(Clone, Copy)]
pub struct Candidates {
    pub items: [Candidate; 8],
    pub len: usize,
}

// What the rules of the choice go by.
#[derive(Clone, Copy)]
pub struct Assessment {
    pub candidates: Candidates,
    pub total: u16,
    pub top: u8,
}

// The assessment of a page's shifted bytes, with the search limit, the stored row count n and T; of another number of bytes an empty one.
pub fn assess(shifted: &[u8], anchors: &[u8], limit: usize, n: u8, t: u8) -> Assessment
    ensures { result ≡ assessed limit shifted.now anchors.now n t }
{
    if shifted.len() != 4080 {
        return Assessment {
            candidates: Candidates::none(),
            total: 0,
            top: 0,
        };
    }
    let counts = counts::value_counts(shifted);
    let ballots = polls::exact_votes(shifted);
    let leaders = commonest::leaders(&counts);
    let candidates = listing::candidates(
        shifted,
        anchors,
        limit,
        n,
        t,
        &counts,
        &ballots.votes,
        leaders.fourth,
    );
    Assessment {
        candidates,
        total: ballots.total,
        top: leaders.top,
    }
}

impl Candidates {
    pub fn none() -> Self
        ensures { result ≡ no_candidates }
    {
        Candidates {
            items: [Candidate::default(); 8],
            len: 0,
        }
    }

    // One candidate more; a full table stays as it is.
    #[tactic(auto, using(crate::proofs::CandidateTable::filling))]
    pub fn with(self, c: Candidate) -> Self
        ensures { result ≡ with_candidate self c }
    {
        let at = self.len;
        if 8 <= at {
            return self;
        }
        let mut next = self;
        next.items[at] = c;
        next.len = at + 1;
        next
    }
}
