ghost use Rattle.std.specs.Prelude.{◌≤◌, length, ⊤};
ghost use Rattle.item_writing.specs.Items.{Finds};
ghost use Rattle.certificate_items.specs.Needed.{needed_certificate as needed_certificate_of};

use certificate_parts::{Certificate, SpareSteps};
use item_writing::Ending;
use leaf_certificate::{CertificateRefusal, read_certificate_in};
use std::alloc::Global;

// The next certificate, which has to be there, and the place behind it.
pub(crate) fn needed_certificate(
    alloc: Global,
    spare: &mut SpareSteps,
    bytes: &[u8],
    at: usize,
) -> Result<(Certificate, usize), Ending>
    requires { at ≤ length bytes.now }
    ensures { Finds (λ x. x) (λ _. ⊤) (needed_certificate_of bytes.now at) at (length bytes.now) result }
{
    match read_certificate_in(alloc, spare, bytes, at)? {
        Some(found) => Ok(found),
        None => Err(Ending::Certificate(CertificateRefusal::Syntax(bytes.len()))),
    }
}
