// A bv that the caller supplies: not chosen, yet the page must support it.
ghost use Rattle.std.specs.Prelude.{◌≡◌, ◌&&◌, leb, eqb};
ghost use Rattle.choice.specs.Supplied.{supplied_with, supplied_by, supplied_of};

use crate::{Choice, Refused, check_asked};
use answers::{Bvs, Confidence, Evidence, Grounds, Options, Refusal, Source, WarningKind};

// For a page's 4,080 shifted bytes, with the stored row count n. A search limit out of range refuses it, as it refuses a choice.
#[tactic(auto, using(crate::proofs::ChoiceCases::supplying))]
pub fn supplied_bv(
    number: u64,
    bv: u8,
    shifted: &[u8],
    n: u8,
    options: Options,
) -> Result<Choice, Refused>
    ensures { result ≡ supplied_of number bv shifted.now n options }
{
    check_asked(shifted.len(), options.search_limit)?;
    let poll = votes::votes_for(shifted, bv);
    let dissent = poll.total.saturating_sub(poll.votes);
    let matches = slots::trailer_row_count_matches(
        shifted,
        bv,
        options.search_limit,
        n,
        options.min_trailer_count,
    );
    supplied_by(
        number,
        options.keystream(),
        bv,
        poll.votes,
        dissent,
        matches,
    )
}

// By the votes for it, the dissent, and the row-count test.
#[tactic(auto, using(crate::proofs::ChoiceCases::supporting))]
fn supplied_by(
    number: u64,
    lenient: bool,
    bv: u8,
    votes: u16,
    dissent: u16,
    matches: bool,
) -> Result<Choice, Refused>
    ensures { result ≡ supplied_by number lenient bv votes dissent matches }
{
    let grounds = Grounds::none()
        .with_if(matches, Evidence::TrailerRowCount)
        .with_if(
            2 <= votes,
            Evidence::ExactSectors {
                count: votes,
                dissent,
            },
        );
    if matches {
        return Ok(supplied_with(bv, Confidence::Verified, grounds, None));
    }
    if is_agreed(votes, dissent) {
        return Ok(supplied_with(bv, Confidence::Calibrated, grounds, None));
    }
    if lenient {
        let warned = WarningKind::UnverifiedKeystream { bv };
        return Ok(supplied_with(bv, Confidence::Unverified, grounds, Some(warned)));
    }
    Err(Refusal::KeystreamUnverified { page: number, bv }.into())
}

// Two votes or more, and no dissent.
fn is_agreed(votes: u16, dissent: u16) -> bool
    ensures { result ≡ (leb 2 votes && eqb dissent 0) }
{
    2 <= votes && dissent == 0
}

fn supplied_with(
    bv: u8,
    confidence: Confidence,
    grounds: Grounds,
    warned: Option<WarningKind>,
) -> Choice
    ensures { result ≡ supplied_with bv confidence grounds warned }
{
    Choice {
        bv,
        source: Source::Supplied,
        confidence,
        grounds,
        others: Bvs::none(),
        warned,
    }
}
