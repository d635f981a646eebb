// The votes of the exact sectors.
ghost use Rattle.std.specs.Prelude.{◌≡◌, length};
ghost use Rattle.votes.specs.Votes.{poll_of};
ghost use Rattle.votes.specs.CountTables.{ballots_of};

// The votes for one value, and all votes.
#[derive(Clone, Copy, PartialEq, Eq, Default)]
pub struct Poll {
    pub votes: u16,
    pub total: u16,
}

// How many votes each value has, and how many there are.
#[derive(Clone, Copy)]
pub struct Ballots {
    pub votes: [u16; 256],
    pub total: u16,
}

// The votes for a bv that is supplied; shifted bytes that are not 4,080 have none.
pub fn votes_for(shifted: &[u8], bv: u8) -> Poll
    ensures { result ≡ poll_of shifted.now bv }
{
    if shifted.len() != 4080 {
        return Poll::default();
    }
    let ballots = exact_votes(shifted);
    Poll {
        votes: ballots.votes[usize::from(bv)],
        total: ballots.total,
    }
}

// Each exact sector votes for its shifted value.
pub(crate) fn exact_votes(shifted: &[u8]) -> Ballots
    requires { length shifted.now ≡ 4080 }
    ensures { result ≡ ballots_of shifted.now }
{
    let mut votes = [0u16; 256];
    let mut total: u16 = 0;
    for s in 0..8 {
        let start = s * 512;
        let end = summary::sector_end(s);
        if sector::all_same(&shifted[start..end]) {
            votes[usize::from(shifted[start])] += 1;
            total += 1;
        }
    }
    Ballots { votes, total }
}
