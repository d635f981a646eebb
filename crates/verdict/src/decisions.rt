// The decision on a page that was written, with its stored row count n.
ghost use Rattle.std.specs.Prelude.{◌≡◌};
ghost use Rattle.answers.specs.Answers.{answer_in};
ghost use Rattle.verdict.specs.Verdict.{verdict_by, supplied_verdict};

use crate::Decoding;
use crate::integrity::{integrity_warning, let_through};
use crate::sectors::{note, settle};
use answers::{Options, Refusal, Warnings};
use choice::Refused;
use sector::Fit;

// `found` is what its integrity was answered to be.
#[tactic(auto, using(crate::proofs::DecisionCases::deciding))]
pub fn decide(
    number: u64,
    found: Result<(), Refusal>,
    n: u8,
    fits: [Fit; 8],
    shifted: &[u8],
    anchors: &[u8],
    options: Options,
) -> Result<Decoding, Refused>
    ensures { result ≡ verdict_by number (answer_in found) n fits shifted.now anchors.now options }
{
    let_through(found, options)?;
    let warnings = note(number, integrity_warning(found), Warnings::none());
    let choice = choice::choose_bv(number, shifted, anchors, n, options)?;
    settle(number, options.keystream(), fits, shifted, choice, warnings)
}

// With a bv that the caller has, the integrity plays no part.
#[tactic(auto, using(crate::proofs::DecisionCases::supplying))]
pub fn decide_supplied(
    number: u64,
    bv: u8,
    n: u8,
    fits: [Fit; 8],
    shifted: &[u8],
    options: Options,
) -> Result<Decoding, Refused>
    ensures { result ≡ supplied_verdict number bv n fits shifted.now options }
{
    let choice = choice::supplied_bv(number, bv, shifted, n, options)?;
    settle(
        number,
        options.keystream(),
        fits,
        shifted,
        choice,
        Warnings::none(),
    )
}
