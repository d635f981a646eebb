// How often each value occurs among the shifted bytes of a page.
ghost use Rattle.std.specs.Prelude.{◌≡◌, length};
ghost use Rattle.votes.specs.Votes.{counts_of};

use census::Quarters;

// Four quarters of 1,020 bytes, each counted in a table of its own.
pub(crate) fn value_counts(bytes: &[u8]) -> [u16; 256]
    requires { length bytes.now ≡ 4080 }
    ensures { result ≡ counts_of bytes.now }
{
    let mut counts = Quarters::after([0; 256]);
    counts.add(bytes);
    counts.sums()
}
