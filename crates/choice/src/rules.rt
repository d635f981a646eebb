// The four rules, in order: each decides, or hands on to the next.
ghost use Rattle.std.specs.Prelude.{◌≡◌, None};
ghost use Rattle.votes.specs.Votes.{listed};
ghost use Rattle.answers.specs.Tables.{empty};
ghost use Rattle.choice.specs.Rules.{grounds_of, taken_of, ambiguous_of, unverified_of, rule_four, is_corroborated, top_candidate, rule_three, is_calibrated, rule_two, sole_of, rule_one};

use crate::{Choice, Refused};
use answers::{Bvs, Confidence, Evidence, Grounds, Refusal, Source, WarningKind};
use groups::{Group, bvs, first, highest, kept, most};
use votes::{Assessment, Candidate, Candidates};

// What the rules go by: the page's number, whether a bv that nothing confirms is let through, and what speaks for each.
#[derive(Clone, Copy)]
pub(crate) struct Case {
    pub(crate) number: u64,
    pub(crate) lenient: bool,
    pub(crate) assessment: Assessment,
}

impl Case {
    // Rule 1, and the others after it. Two or more verified are ambiguous.
    #[tactic(auto, using(crate::proofs::ChoiceCases::primary))]
    pub(crate) fn rule_one(self) -> Result<Choice, Refused>
        ensures { result ≡ rule_one self.number self.lenient self.assessment }
    {
        let verified = kept(Group::Verified, self.assessment.candidates);
        if 2 <= verified.len {
            return self.ambiguous(verified);
        }
        if verified.len == 1 {
            return self.sole(first(verified));
        }
        self.rule_two()
    }

    // One verified candidate is taken, if it has no rival.
    #[tactic(auto, using(crate::proofs::ChoiceCases::soling))]
    fn sole(self, v: Candidate) -> Result<Choice, Refused>
        ensures { result ≡ sole_of self.number self.lenient self.assessment v }
    {
        let bv = v.bv;
        let top = self.assessment.top;
        let rivals = kept(Group::Rivals { bv, top }, self.assessment.candidates);
        if rivals.len == 0 {
            return Ok(self.taken(v, Source::TrailerRowCount, Confidence::Verified));
        }
        let contest = kept(Group::Contest { bv, top }, self.assessment.candidates);
        self.ambiguous(contest)
    }

    // Rule 2. Two or more voted values are ambiguous; one with two votes or more is taken.
    #[tactic(auto, using(crate::proofs::ChoiceCases::second))]
    fn rule_two(self) -> Result<Choice, Refused>
        ensures { result ≡ rule_two self.number self.lenient self.assessment }
    {
        let voted = kept(Group::Voted, self.assessment.candidates);
        if 2 <= voted.len {
            return self.ambiguous(voted);
        }
        if is_calibrated(voted) {
            return Ok(self.taken(first(voted), Source::ExactSectors, Confidence::Calibrated));
        }
        self.rule_three()
    }

    // Rule 3. The top is taken, if it is corroborated.
    #[tactic(auto, using(crate::proofs::ChoiceCases::third))]
    fn rule_three(self) -> Result<Choice, Refused>
        ensures { result ≡ rule_three self.number self.lenient self.assessment }
    {
        let c = self.top_candidate();
        if self.is_corroborated(c) {
            return Ok(self.taken(c, Source::Corroborated, Confidence::Corroborated));
        }
        self.rule_four()
    }

    // One vote in all, for it; anchored; no other candidate voted or anchored.
    #[tactic(auto, using(crate::proofs::ChoiceCases::corroborating), unfolding(crate::specs::Rules::is_corroborated))]
    fn is_corroborated(self, c: Candidate) -> bool
        ensures { result ≡ is_corroborated self.assessment c }
    {
        self.assessment.total == 1
            && c.votes == 1
            && c.anchored
            && kept(Group::Supported(c.bv), self.assessment.candidates).len == 0
    }

    // Rule 4. Nothing confirms the top.
    fn rule_four(self) -> Result<Choice, Refused>
        ensures { result ≡ rule_four self.number self.lenient self.assessment }
    {
        self.unverified(self.top_candidate())
    }

    #[tactic(auto, using(crate::proofs::ChoiceCases::topmost))]
    fn top_candidate(self) -> Candidate
        ensures { result ≡ top_candidate self.assessment }
    {
        first(kept(Group::Only(self.assessment.top), self.assessment.candidates))
    }

    // Several candidates: refused; under leniency the one that ranks highest.
    #[tactic(auto, using(crate::proofs::ChoiceCases::ranking))]
    fn ambiguous(self, group: Candidates) -> Result<Choice, Refused>
        ensures { result ≡ ambiguous_of self.number self.lenient self.assessment (listed group) }
    {
        if !self.lenient {
            return Err(Refused {
                refusal: Refusal::AmbiguousCalibration(self.number),
                candidates: bvs(group),
            });
        }
        let c = highest(group);
        Ok(Choice {
            others: bvs(kept(Group::Others(c.bv), group)),
            warned: Some(WarningKind::AmbiguousCalibration { chosen: c.bv }),
            ..self.taken(c, Source::Histogram, Confidence::Unverified)
        })
    }

    // A candidate that nothing confirms: refused; under leniency taken.
    #[tactic(auto, using(crate::proofs::ChoiceCases::confirming))]
    fn unverified(self, c: Candidate) -> Result<Choice, Refused>
        ensures { result ≡ unverified_of self.number self.lenient self.assessment c }
    {
        let bv = c.bv;
        if !self.lenient {
            let page = self.number;
            return Err(Refusal::KeystreamUnverified { page, bv }.into());
        }
        Ok(Choice {
            warned: Some(WarningKind::UnverifiedKeystream { bv }),
            ..self.taken(c, Source::Histogram, Confidence::Unverified)
        })
    }

    // With no warning, and preferred to none.
    #[tactic(auto, unfolding(crate::specs::Rules::taken_of))]
    fn taken(self, c: Candidate, source: Source, confidence: Confidence) -> Choice
        ensures { result ≡ taken_of self.assessment c source confidence None empty }
    {
        Choice {
            bv: c.bv,
            source,
            confidence,
            grounds: self.evidence_for(c),
            others: Bvs::none(),
            warned: None,
        }
    }

    // What speaks for a candidate, in document 01's order.
    #[tactic(auto, using(crate::proofs::ChoiceCases::telling))]
    fn evidence_for(self, c: Candidate) -> Grounds
        ensures { result ≡ grounds_of self.assessment c }
    {
        let others = kept(Group::Others(c.bv), self.assessment.candidates);
        let exact = Evidence::ExactSectors {
            count: c.votes,
            dissent: self.assessment.total.saturating_sub(c.votes),
        };
        let mass = Evidence::ZeroMass {
            zeros: c.zeros,
            lead: c.zeros.saturating_sub(most(others)),
        };
        Grounds::none()
            .with_if(c.verified, Evidence::TrailerRowCount)
            .with_if(0 < c.votes, exact)
            .with_if(c.anchored, Evidence::BlockAnchor)
            .with(mass)
    }
}

// One voted value, with two votes or more.
#[tactic(auto, unfolding(crate::specs::Rules::is_calibrated))]
fn is_calibrated(voted: Candidates) -> bool
    ensures { result ≡ is_calibrated voted.len (listed voted) }
{
    voted.len == 1 && 2 <= first(voted).votes
}
