ghost use Rattle.std.specs.Prelude.{◌≡◌};
ghost use Rattle.certificate.specs.Certificate.{most_arcs};
ghost use Rattle.certificate.specs.Reading as Reading;
ghost use Rattle.certificate.specs.Text.{version_number};

use crate::limits::{CERT_ARCS_MAX, VERSION_ONE_ARCS_MAX};

/// The version of a certificate's text.
#[derive(Clone, Copy, Debug, PartialEq, Eq)]
pub enum Version {
    /// An arc's line has no direction: each arc is a direction of its own.
    One,
    /// An arc's line begins with its direction. Certificates are printed in this version.
    Two,
}

impl Version {
    /// The version with this number.
    pub(crate) fn of(number: u64) -> Option<Version>
        ensures { result ≡ Reading.version_of number }
    {
        match number {
            1 => Some(Version::One),
            2 => Some(Version::Two),
            _ => None,
        }
    }

    /// The number of the version.
    pub(crate) fn number(self) -> u64
        ensures { result ≡ version_number self }
    {
        match self {
            Version::One => 1,
            Version::Two => 2,
        }
    }

    /// The most arcs of a certificate.
    pub(crate) fn arcs_max(self) -> u64
        ensures { result ≡ most_arcs self }
    {
        match self {
            Version::One => VERSION_ONE_ARCS_MAX,
            Version::Two => CERT_ARCS_MAX,
        }
    }
}
