// The rank within a group.
ghost use Rattle.std.specs.Prelude.{◌≡◌};
ghost use Rattle.votes.specs.Votes.{listed};
ghost use Rattle.groups.specs.Groups.{first_of, outranks, higher, highest_of};

use crate::members::listed;
use votes::{Candidate, Candidates};

// The first candidate of a table; of an empty one a blank.
pub fn first(t: Candidates) -> Candidate
    ensures { result ≡ first_of (listed t) }
{
    listed(&t).first().copied().unwrap_or_default()
}

// The candidate that ranks above the others.
pub fn highest(t: Candidates) -> Candidate
    ensures { result ≡ highest_of (listed t) }
{
    listed(&t)
        .iter()
        .fold(first(t), |best, c| higher_ranked(best, *c))
}

#[tactic(auto, unfolding(crate::specs::Groups::higher))]
fn higher_ranked(best: Candidate, c: Candidate) -> Candidate
    ensures { result ≡ higher best c }
{
    if ranks_above(c, best) { c } else { best }
}

// By votes, verified, anchored, count, and then the smaller bv.
fn ranks_above(a: Candidate, b: Candidate) -> bool
    ensures { result ≡ outranks a b }
{
    (b.votes.cmp(&a.votes))
        .then(b.verified.cmp(&a.verified))
        .then(b.anchored.cmp(&a.anchored))
        .then(b.zeros.cmp(&a.zeros))
        .then(a.bv.cmp(&b.bv))
        .is_lt()
}
