// The fits of a decoding, and what becomes of a sector whose step is in doubt.
ghost use Rattle.std.specs.Prelude.{◌≡◌, not, Ok, length, position};
ghost use Rattle.sector.specs.Fit.{confident_of};
ghost use Rattle.verdict.specs.Sectors.{refit_of, sector_warnings};
ghost use Rattle.verdict.specs.Verdict.{warning_noted, sectors_decide, settled_of};

use crate::Decoding;
use answers::{Refusal, Warning, WarningKind, Warnings};
use choice::{Choice, Refused};
use sector::Fit;

// A choice is made: the sectors decide.
#[tactic(auto, unfolding(crate::specs::Verdict::settled_of))]
pub(crate) fn settle(
    number: u64,
    lenient: bool,
    fits: [Fit; 8],
    shifted: &[u8],
    choice: Choice,
    warnings: Warnings,
) -> Result<Decoding, Refused>
    requires { length shifted.now ≡ 4080 }
    ensures { result ≡ settled_of number lenient (refit_of fits shifted.now) (Ok choice) warnings }
{
    let found = Decoding {
        choice,
        fits: refit(fits, shifted),
        warnings: note(number, choice.warned, warnings),
    };
    found.by_sectors(number, lenient)
}

// The warning, if it is one.
pub(crate) fn note(number: u64, warned: Option<WarningKind>, warnings: Warnings) -> Warnings
    ensures { result ≡ warning_noted number warned warnings }
{
    warnings.with_any(warned.map(|kind| Warning { page: number, kind }))
}

impl Decoding {
    #[tactic(auto, using(crate::proofs::DecisionCases::judging))]
    fn by_sectors(self, number: u64, lenient: bool) -> Result<Decoding, Refused>
        ensures { result ≡ sectors_decide number lenient self.fits self.choice self.warnings }
    {
        if lenient {
            return Ok(Decoding {
                warnings: warn_sectors(number, self.fits, self.warnings),
                ..self
            });
        }
        match first_weak(self.fits) {
            Some(s) => {
                let refusal = Refusal::LowConfidenceKeystream {
                    page: number,
                    sector: s as u8,
                    peak: self.fits[s].peak,
                    runner_up: self.fits[s].runner_up,
                };
                Err(refusal.into())
            }
            None => Ok(self),
        }
    }
}

// The fits, each exact if its shifted bytes are all equal.
#[tactic(auto, using(crate::proofs::WeakSectors::refitting))]
fn refit(fits: [Fit; 8], shifted: &[u8]) -> [Fit; 8]
    requires { length shifted.now ≡ 4080 }
    ensures { result ≡ refit_of fits shifted.now }
{
    let mut made = Fit::blanks();
    for (s, fit) in made.iter_mut().enumerate() {
        let exact = sector::all_same(&shifted[s * 512..summary::sector_end(s)]);
        *fit = Fit { exact, ..fits[s] };
    }
    made
}

// The first sector whose step is in doubt.
fn first_weak(fits: [Fit; 8]) -> Option<usize>
    ensures { result ≡ position (λ f. not (confident_of f)) fits }
{
    fits.iter().position(|fit| !fit.confident())
}

// A warning for each sector whose step is in doubt, ascending.
#[tactic(auto, using(crate::proofs::WeakSectors::weakness))]
fn warn_sectors(number: u64, fits: [Fit; 8], warnings: Warnings) -> Warnings
    ensures { result ≡ sector_warnings number fits warnings 8 }
{
    let mut all = warnings;
    for (s, fit) in fits.iter().enumerate() {
        if !fit.confident() {
            all.add(Warning {
                page: number,
                kind: WarningKind::LowConfidenceSector {
                    sector: s as u8,
                    peak: fit.peak,
                    runner_up: fit.runner_up,
                },
            });
        }
    }
    all
}
