// The choice of bv: document 01, "Choosing bv"; `choose_bv` and the choice of `deobfuscate_with_bv` in the original's ap.rs. Four rules, in order,
// each a function of its own, over the candidates of an assessment.
#![tactic(auto)]

mod rules;
mod supplied;

ghost use Rattle.std.specs.Prelude.{◌≡◌};
ghost use Rattle.answers.specs.Answers.{answer_in};
ghost use Rattle.choice.specs.Rules.{refusal, asked_answer, choice_of};

use answers::{Bvs, Confidence, Grounds, Options, Refusal, Source, WarningKind};
use rules::Case;
pub use supplied::supplied_bv;

// The choice. `others`: of an ambiguous choice that was let through, those it was preferred to.
#[derive(Clone, Copy)]
pub struct Choice {
    pub bv: u8,
    pub source: Source,
    pub confidence: Confidence,
    pub grounds: Grounds,
    pub others: Bvs,
    pub warned: Option<WarningKind>,
}

// Why nothing is taken, with the candidates of answer 5.
#[derive(Clone, Copy)]
pub struct Refused {
    pub refusal: Refusal,
    pub candidates: Bvs,
}

impl From<Refusal> for Refused {
    ghost from_gives = { λ x r. r ≡ refusal x };

    fn from(refusal: Refusal) -> Refused {
        Refused {
            refusal,
            candidates: Bvs::none(),
        }
    }
}

// The choice for a page's 4,080 shifted bytes, with the stored row count n. A search limit out of range refuses it before a byte is read.
#[tactic(auto, using(crate::proofs::ChoiceCases::choosing))]
pub fn choose_bv(
    number: u64,
    shifted: &[u8],
    anchors: &[u8],
    n: u8,
    options: Options,
) -> Result<Choice, Refused>
    ensures { result ≡ choice_of number shifted.now anchors.now n options }
{
    check_asked(shifted.len(), options.search_limit)?;
    let case = Case {
        number,
        lenient: options.keystream(),
        assessment: votes::assess(
            shifted,
            anchors,
            options.search_limit,
            n,
            options.min_trailer_count,
        ),
    };
    case.rule_one()
}

// How many shifted bytes there are, then the search limit: the first that is wrong refuses.
#[tactic(auto, using(crate::proofs::ChoiceCases::asking))]
pub(crate) fn check_asked(shifted: usize, limit: usize) -> Result<(), Refusal>
    ensures { answer_in result ≡ asked_answer shifted limit }
{
    if shifted != 4080 {
        return Err(Refusal::WrongBufferLength(shifted));
    }
    if !Options::limit_fits(limit) {
        return Err(Refusal::LimitOutOfRange(limit));
    }
    Ok(())
}
