// The members of a group.
ghost use Rattle.std.specs.Prelude.{◌≡◌, length};
ghost use Rattle.votes.specs.Votes.{listed};
ghost use Rattle.groups.specs.Groups.{kept_of, is_rival, has_support, belongs};

use crate::Group;
use votes::{Candidate, Candidates};

// The candidates that a group has, in their order.
pub fn kept(g: Group, t: Candidates) -> Candidates
    ensures { result ≡ kept_of g t }
{
    listed(&t)
        .iter()
        .filter(|c| is_member(g, **c))
        .fold(Candidates::none(), |out, c| out.with(*c))
}

fn is_member(g: Group, c: Candidate) -> bool
    ensures { result ≡ belongs g c }
{
    match g {
        Group::Verified => c.verified,
        Group::Voted => 0 < c.votes,
        Group::Only(bv) => c.bv == bv,
        Group::Others(bv) => c.bv != bv,
        Group::Rivals { bv, top } => is_rival(bv, top, c),
        Group::Contest { bv, top } => c.bv == bv || is_rival(bv, top, c),
        Group::Supported(bv) => is_supported(bv, c),
    }
}

// Another candidate with two or more votes, or anchored and top.
#[tactic(auto, unfolding(crate::specs::Groups::is_rival))]
fn is_rival(bv: u8, top: u8, c: Candidate) -> bool
    ensures { result ≡ is_rival bv top c }
{
    c.bv != bv && (2 <= c.votes || (c.anchored && c.bv == top))
}

// Another candidate with a vote or an anchor.
#[tactic(auto, unfolding(crate::specs::Groups::has_support))]
fn is_supported(bv: u8, c: Candidate) -> bool
    ensures { result ≡ has_support bv c }
{
    c.bv != bv && (0 < c.votes || c.anchored)
}

// The candidates that a table holds: there is room for eight. The length is asked for since no array's is known behind a reference.
pub(crate) fn listed(t: &Candidates) -> &[Candidate]
    requires { length t.now.items ≡ 8 }
    ensures { result.now ≡ listed t.now }
{
    &t.items[..t.len.min(8)]
}
