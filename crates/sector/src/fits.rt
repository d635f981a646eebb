// The fit of a sector.
ghost use Rattle.std.specs.Prelude.{◌≡◌};
ghost use Rattle.sector.specs.Fit.{confident_of};
ghost use Rattle.sector.specs.Scan.{blank_fit, blank_fits};

// The step of a sector, the bytes that agree under it, the bytes that agree under the next best, whether all agree, and how many of the
// 256 steps reach that peak.
#[derive(Clone, Copy, PartialEq, Eq, Default)]
pub struct Fit {
    pub step: u8,
    pub peak: u16,
    pub runner_up: u16,
    pub exact: bool,
    pub tied: u16,
}

impl Fit {
    // Random sectors reach peaks of 9 to 13, so 24 is well clear of chance.
    pub const MIN_STEP_PEAK: u32 = 24;

    // So many more bytes must agree than under the next best step.
    pub const MIN_STEP_LEAD: u32 = 12;

    // What stands where no sector was scanned.
    pub fn blank() -> Self
        ensures { result ≡ blank_fit }
    {
        Fit::default()
    }

    // And of a page that was not scanned.
    pub fn blanks() -> [Self; 8]
        ensures { result ≡ blank_fits }
    {
        [Fit::blank(); 8]
    }

    // The step is beyond doubt. Of what no scan gives, too: the sum cannot wrap.
    pub fn confident(self) -> bool
        ensures { result ≡ confident_of self }
    {
        let peak = u32::from(self.peak);
        let lead = u32::from(self.runner_up) + Fit::MIN_STEP_LEAD;
        self.exact || (peak >= Fit::MIN_STEP_PEAK && peak >= lead)
    }
}
