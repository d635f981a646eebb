// The search over the modal counts of the 256 steps, however they were counted.
ghost use Rattle.std.specs.Prelude.{◌≡◌};
ghost use Rattle.sector.specs.Fit.{table_fit};

use crate::fits::Fit;

// The fit of a sector of `n` bytes. A greater count begins the number of tied steps anew; an equal one adds to it, and is the runner-up.
pub fn table_fit(counts: [u16; 256], n: usize) -> Fit
    ensures { result ≡ table_fit counts n }
{
    let mut best_step: u8 = 0;
    let mut best: u16 = 0;
    let mut runner_up: u16 = 0;
    let mut tied: u16 = 0;
    for step in 0..256 {
        let peak = counts[step];
        if peak > best {
            runner_up = best;
            best = peak;
            best_step = step as u8;
            tied = 1;
        } else {
            if peak == best {
                tied += 1;
            }
            if peak > runner_up {
                runner_up = peak;
            }
        }
    }
    let exact = usize::from(best) == n;
    Fit {
        step: best_step,
        peak: best,
        runner_up,
        exact,
        tied,
    }
}
