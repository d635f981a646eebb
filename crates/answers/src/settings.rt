// What a reader may relax, from which row count on the row-count test counts, and how far a slot directory is looked for.
ghost use Rattle.std.specs.Prelude.{◌≡◌};
ghost use Rattle.answers.specs.Settings.{leniency_of, options_of, limit_fits, has_keystream, has_directory, has_integrity, keystream, directory, integrity, strict_options};

// The checks that are relaxed. Other bits mean nothing.
#[derive(Clone, Copy)]
pub struct Leniency {
    pub bits: u8,
}

impl Leniency {
    // Take a bv that nothing confirms, and sectors whose step is in doubt.
    pub const KEYSTREAM: u8 = 1;

    // Take a slot directory that no prelude confirms.
    pub const DIRECTORY: u8 = 2;

    // Take pages that fail their CRC or trailer check.
    pub const INTEGRITY: u8 = 4;

    pub fn new(bits: u8) -> Self
        ensures { result ≡ leniency_of bits }
    {
        Leniency { bits }
    }

    pub fn keystream(self) -> bool
        ensures { result ≡ has_keystream self.bits }
    {
        self.bits / Leniency::KEYSTREAM % 2 == 1
    }

    pub fn directory(self) -> bool
        ensures { result ≡ has_directory self.bits }
    {
        self.bits / Leniency::DIRECTORY % 2 == 1
    }

    pub fn integrity(self) -> bool
        ensures { result ≡ has_integrity self.bits }
    {
        self.bits / Leniency::INTEGRITY % 2 == 1
    }
}

// The leniency, T, and the search limit: a scan stays in that many first bytes, and a prelude's field begins there.
#[derive(Clone, Copy)]
pub struct Options {
    pub leniency: Leniency,
    pub min_trailer_count: u8,
    pub search_limit: usize,
}

impl Options {
    // The original's T: the pairs (1, 0) and (2, 0) are the commonest in page data, so a match on them says little.
    pub const MIN_TRAILER_COUNT: u8 = 4;

    // The original's limit.
    pub const SEARCH_LIMIT: usize = 768;

    pub fn new(bits: u8, min_trailer_count: u8, search_limit: usize) -> Self
        ensures { result ≡ options_of bits min_trailer_count search_limit }
    {
        let leniency = Leniency { bits };
        Options {
            leniency,
            min_trailer_count,
            search_limit,
        }
    }

    // Nothing relaxed, and the original's T and limit.
    pub fn strict() -> Self
        ensures { result ≡ strict_options }
    {
        Options::new(0, Options::MIN_TRAILER_COUNT, Options::SEARCH_LIMIT)
    }

    // Whether a search limit is one of 8 to 2,048: four live slots take 8 bytes. Another is refused with 20.
    #[tactic(auto, unfolding(crate::specs::Settings::limit_fits))]
    pub fn limit_fits(limit: usize) -> bool
        ensures { result ≡ limit_fits limit }
    {
        8 <= limit && limit <= 2048
    }

    pub fn keystream(self) -> bool
        ensures { result ≡ keystream self }
    {
        let leniency = self.leniency;
        leniency.keystream()
    }

    pub fn directory(self) -> bool
        ensures { result ≡ directory self }
    {
        let leniency = self.leniency;
        leniency.directory()
    }

    pub fn integrity(self) -> bool
        ensures { result ≡ integrity self }
    {
        let leniency = self.leniency;
        leniency.integrity()
    }
}
