// What is counted and listed of a group.
ghost use Rattle.std.specs.Prelude.{◌≡◌};
ghost use Rattle.votes.specs.Votes.{listed};
ghost use Rattle.groups.specs.Groups.{most_of, bvs_of};

use crate::members::listed;
use answers::Bvs;
use votes::Candidates;

// The greatest count.
pub fn most(t: Candidates) -> u16
    ensures { result ≡ most_of (listed t) }
{
    listed(&t).iter().fold(0, |most, c| most.max(c.zeros))
}

// The values of bv.
pub fn bvs(t: Candidates) -> Bvs
    ensures { result ≡ bvs_of (listed t) }
{
    listed(&t).iter().fold(Bvs::none(), |out, c| out.with(c.bv))
}
