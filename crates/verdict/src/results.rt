// The decoding that no rule of the choice gives: that of a page that was never written.
ghost use Rattle.std.specs.Prelude.{◌≡◌};
ghost use Rattle.verdict.specs.Sectors.{unallocated_fits};
ghost use Rattle.verdict.specs.Verdict.{unallocated_of};

use crate::Decoding;
use answers::{Bvs, Confidence, Evidence, Grounds, Source, Warnings};
use choice::Choice;
use sector::Fit;

#[tactic(auto, unfolding(crate::specs::Verdict::unallocated_of))]
pub fn unallocated() -> Decoding
    ensures { result ≡ unallocated_of }
{
    Decoding {
        choice: Choice {
            bv: 0,
            source: Source::Unallocated,
            confidence: Confidence::Unallocated,
            grounds: Grounds::none().with(Evidence::Unallocated),
            others: Bvs::none(),
            warned: None,
        },
        fits: unallocated_fits(),
        warnings: Warnings::none(),
    }
}

fn unallocated_fits() -> [Fit; 8]
    ensures { result ≡ unallocated_fits }
{
    let fit = Fit {
        exact: true,
        ..Fit::blank()
    };
    [fit; 8]
}
