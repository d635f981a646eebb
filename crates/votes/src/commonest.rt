// The commonest value, and which values are among the four commonest, in one pass over the counts.
ghost use Rattle.std.specs.Prelude.{◌≡◌, length};
ghost use Rattle.votes.specs.CountTables.{key_of, Leads};

// The commonest value, and the key of the fourth commonest.
#[derive(Clone, Copy)]
pub struct Leading {
    pub top: u8,
    pub fourth: u32,
}

// Of two values the commoner has the greater key; of equal counts the smaller value is the commoner.
pub(crate) fn key(zeros: u16, v: u8) -> u32
    ensures { result ≡ key_of zeros v }
{
    u32::from(zeros) * 256 + u32::from(255 - v)
}

// The four greatest keys: each place keeps the greater of two, and hands the other on.
pub(crate) fn leaders(counts: &[u16]) -> Leading
    requires { length counts.now ≡ 256 }
    ensures { Leads counts.now result }
{
    let mut first: u32 = 0;
    let mut second: u32 = 0;
    let mut third: u32 = 0;
    let mut fourth: u32 = 0;
    for v in 0..256 {
        let k = key(counts[v], v as u8);
        let j = first.min(k);
        first = first.max(k);
        let i = second.min(j);
        second = second.max(j);
        let h = third.min(i);
        third = third.max(i);
        fourth = fourth.max(h);
    }
    Leading {
        top: (255 - first % 256) as u8,
        fourth,
    }
}
