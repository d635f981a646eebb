// Whether all bytes are equal.
ghost use Rattle.std.specs.Prelude.{◌≡◌};
ghost use Rattle.lists.specs.Counts.{all_same};

use numbers::all_are;

pub fn all_same(part: &[u8]) -> bool
    ensures { result ≡ all_same part.now }
{
    match part.first() {
        Some(x) => all_are(part, *x),
        None => true,
    }
}
