// What becomes of a page by the answer on its integrity: `found`.
ghost use Rattle.std.specs.Prelude.{◌≡◌};
ghost use Rattle.answers.specs.Answers.{answer_in};
ghost use Rattle.verdict.specs.Verdict.{integrity_left, integrity_warning};

use answers::{Options, Refusal, WarningKind};

// What is left of it under leniency: a refused page needs no scan.
pub fn let_through(found: Result<(), Refusal>, options: Options) -> Result<(), Refusal>
    ensures { answer_in result ≡ integrity_left (answer_in found) options }
{
    if options.integrity() { Ok(()) } else { found }
}

// And as a warning, where it does not refuse.
pub(crate) fn integrity_warning(found: Result<(), Refusal>) -> Option<WarningKind>
    ensures { result ≡ integrity_warning (answer_in found) }
{
    found.err().map(|refusal| match refusal {
        Refusal::BadCrc { .. } => WarningKind::BadCrc,
        _ => WarningKind::BadTrailer,
    })
}
