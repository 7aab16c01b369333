//! Certificates of answers to parametric integer programs (`certificate_parts`), and their text.
#![tactic(auto)]

mod closing;
mod next_number;
mod print;
mod read;
mod read_leaf;
mod read_step;
mod refusal;

pub use certificate_parts::{Certificate, LeafProofs, Refutation, Step, Terms};
pub use print::print_certificate;
pub use read::{read_certificate, read_certificate_in};
pub use refusal::CertificateRefusal;
