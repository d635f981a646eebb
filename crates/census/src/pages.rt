// The exact sectors of a page, and the tally of all.
ghost use Rattle.std.specs.Prelude.{◌≡◌, length};
ghost use Rattle.census.specs.Told.{tallied};
ghost use Rattle.census.specs.Tables.{Noted};

use crate::quarters::with_others;
use sector::Fit;

// How often each value occurs, how many exact sectors vote for it, and how many vote in all.
#[derive(Clone, Copy)]
pub struct Tally {
    pub counts: [u16; 256],
    pub votes: [u16; 256],
    pub total: u16,
}

// Of 4,080 shifted bytes, where the fits tell which sectors are exact; of another number of bytes an empty one.
pub fn count_page(shifted: &[u8], fits: [Fit; 8]) -> Tally
    ensures { result ≡ tallied fits shifted.now }
{
    let mut exact = [0u16; 256];
    let mut votes = [0u16; 256];
    if shifted.len() != 4080 {
        return Tally {
            counts: exact,
            votes,
            total: 0,
        };
    }
    let total = note_exact(shifted, fits, &mut exact, &mut votes);
    if total == 8 {
        return Tally {
            counts: exact,
            votes,
            total,
        };
    }
    let counts = with_others(shifted, fits, exact);
    Tally {
        counts,
        votes,
        total,
    }
}

// Each exact sector counts all its bytes at its value, and votes for it; how many there are.
fn note_exact(shifted: &[u8], fits: [Fit; 8], counts: &mut [u16], votes: &mut [u16]) -> u16
    requires shifted_len { length shifted.now ≡ 4080 }
    requires noted { Noted fits shifted.now 0 counts.old votes.old 0 }
    ensures { Noted fits shifted.now 8 counts.new votes.new result }
{
    let mut total: u16 = 0;
    for (s, fit) in fits.iter().enumerate() {
        if fit.exact {
            let start = s * 512;
            let n = summary::sector_end(s) - start;
            let v = usize::from(shifted[start]);
            counts[v] += n as u16;
            votes[v] += 1;
            total += 1;
        }
    }
    total
}
