ghost use Rattle.std.specs.Prelude.{◌≡◌};

use text_reading::TextFault;
use thiserror::Error;

/// Why a certificate's text is not read: the place of the token that differs, or of a number that is too wide; the
/// format where it is neither 1 nor 2.
#[derive(Clone, Copy, Debug, PartialEq, Eq, Error)]
pub enum CertificateRefusal {
    #[error("syntax at byte {0}")]
    Syntax(usize),
    #[error("the number at byte {0} is too wide")]
    Wide(usize),
    #[error("certificates of format {0} are not read")]
    Version(i128),
    #[error("want of memory")]
    WantOfMemory,
}

impl From<TextFault> for CertificateRefusal {
    ghost use Rattle.text_reading.specs.Steps.{fault_of};
    ghost use Rattle.leaf_certificate.specs.Faults.{certificate_fault};

    ghost from_gives = { λ fault e. certificate_fault e ≡ fault_of fault };

    fn from(fault: TextFault) -> CertificateRefusal {
        match fault {
            TextFault::Syntax(place) => CertificateRefusal::Syntax(place),
            TextFault::Wide(place) => CertificateRefusal::Wide(place),
            TextFault::WantOfMemory => CertificateRefusal::WantOfMemory,
        }
    }
}
