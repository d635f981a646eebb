// Whether one run of bytes occurs in another: document 01, "Page, trailer, superblock", the marker on page 0. It carries over the search in the
// original's superblock.rs.
#![tactic(auto)]

ghost use Rattle.std.specs.Prelude.{◌≡◌};
ghost use Rattle.marker.specs.Marker.{occurs_in};

// Nearly every place differs in the first or second byte, so a search costs little more than one look at each.
pub fn occurs(marker: &[u8], bytes: &[u8]) -> bool
    ensures { result ≡ occurs_in marker.now bytes.now }
{
    marker.is_empty() || bytes.windows(marker.len()).any(|window| window == marker)
}
