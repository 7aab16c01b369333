ghost use Rattle.std.specs.Prelude.{◌≡◌, ◌≤◌, ◌<◌, ◌↔◌, codes, length, drop, All, None, IsTrue, IfOk, IfSome};
ghost use Rattle.std.specs.List.{list_all};
ghost use Rattle.pip_model.specs.Moved.{is_closed};
ghost use Rattle.pip_model.specs.Certificate as model;
ghost use Rattle.pip_model.specs.Printed.{certificate_fits};
ghost use Rattle.pip_model.specs.Agreement.{Agrees};
ghost use Rattle.affine_forms.specs.Checks.{Fits};
ghost use Rattle.text_reading.specs.Steps.{fault_of, AreRead, IsRead};
ghost use Rattle.leaf_certificate.specs.Faults.{certificate_fault};
ghost use Rattle.leaf_certificate.specs.Sequences.{numbers_to_end};
ghost use Rattle.certificate_parts.specs.Vectors.{numbers_of};

use crate::read_leaf::read_leaves;
use crate::refusal::CertificateRefusal;
use certificate_parts::{Certificate, SpareSteps};
use std::alloc::Global;
use text_reading::{Reads, TextFault, expect, expect_word, number, same_bracket, spells};
use text_tokens::{Kind, next_open, token};

// The format, which is 1 or 2, and the place behind it.
#[tactic(auto, using(pip_model::proofs::Tests::same_number_yes, pip_model::proofs::Tests::same_number_no))]
fn read_version(bytes: &[u8], place: usize) -> Reads<bool, CertificateRefusal>
    requires { place ≤ length bytes.now }
    ensures { IsRead (λ shares. shares) certificate_fault bytes.now place result (model.version bytes.now place) }
{
    let (number, after) = number(bytes, place)?;
    if number == 1 {
        Ok((false, after))
    } else if number == 2 {
        Ok((true, after))
    } else {
        Err(CertificateRefusal::Version(number))
    }
}

// The numbers up to the `]`, and the place behind that.
fn read_numbers(alloc: Global, bytes: &[u8], place: usize) -> Reads<Vec<i128>, TextFault>
    requires some { 0 < place }
    requires place { place ≤ length bytes.now }
    ensures reads { AreRead (λ v. v.items) fault_of bytes.now place result (numbers_to_end bytes.now place) }
    ensures fits { IfOk result (λ x. All Fits x.0.items) }
{
    let mut read = Vec::new(alloc);
    let mut at = place;
    while !same_bracket(token(bytes, at).kind, Kind::RightRow) {
        let (number, after) = number(bytes, at)?;
        read.push(number)?;
        at = after;
    }
    Ok((read, token(bytes, at).after))
}

// The word `void`, or numbers between row brackets, and the place behind them.
fn read_vector(alloc: Global, bytes: &[u8], place: usize) -> Reads<Option<Vec<i128>>, TextFault>
    requires { place ≤ length bytes.now }
    ensures reads { IsRead numbers_of fault_of bytes.now place result (model.vector bytes.now place) }
    ensures fits { IfOk result (λ x. IfSome (numbers_of x.0) (All Fits)) }
{
    let token = token(bytes, place);
    if spells(bytes, token, b"void") {
        return Ok((None, token.after));
    }
    let first = expect(bytes, Kind::LeftRow, place)?;
    let (numbers, after) = read_numbers(alloc, bytes, first)?;
    Ok((Some(numbers), after))
}

// The certificate that begins at a place, and the place behind its last `)`.
fn certificate_at(
    alloc: Global,
    spare: &mut SpareSteps,
    bytes: &[u8],
    place: usize,
) -> Reads<Certificate, CertificateRefusal>
    requires { place ≤ length bytes.now }
    ensures { IsRead (λ c. c) certificate_fault bytes.now place result (model.certificate_at bytes.now place) }
{
    let at = expect(bytes, Kind::LeftParen, place)?;
    let at = expect_word(bytes, b"certificate", at)?;
    let (shares, at) = read_version(bytes, at)?;
    let (vector, at) = read_vector(alloc, bytes, at)?;
    let start = Certificate::with_vector(alloc, shares, vector);
    let (certificate, after) = read_leaves(alloc, spare, bytes, start, at)?;
    Ok((certificate, after))
}

// The certificate that begins with the first `(` at or behind `start`, and the place behind its last `)`.
fn first_certificate(
    alloc: Global,
    spare: &mut SpareSteps,
    bytes: &[u8],
    start: usize,
) -> Result<Option<(Certificate, usize)>, CertificateRefusal>
    requires { start ≤ length bytes.now }
    ensures agrees { Agrees (λ o. o) certificate_fault result (model.read_certificate bytes.now start) }
    ensures place { IfOk result (λ o. IfSome o (λ x. (start < x.1) × (x.1 ≤ length bytes.now))) }
{
    match next_open(bytes, start) {
        None => Ok(None),
        Some(place) => Ok(Some(certificate_at(alloc, spare, bytes, place)?)),
    }
}

/// The certificate that begins with the first `(` at or behind `start`, and the place behind its last `)`; none exactly
/// where there is no `(`. Format 1 and format 2 are read, and the numbers of what is read fit.
///
/// The first token that differs from the format decides the refusal, which keeps the place of that token's first byte
/// (the number of bytes at their end). A number of more than 127 bits where one is expected is `Wide`. Another format
/// is `Version` with its number.
pub fn read_certificate(
    alloc: Global,
    bytes: &[u8],
    start: usize,
) -> Result<Option<(Certificate, usize)>, CertificateRefusal>
    requires { start ≤ length bytes.now }
    ensures agrees { Agrees (λ o. o) certificate_fault result (model.read_certificate bytes.now start) }
    ensures none { IfOk result (λ o. (o ≡ None) ↔ IsTrue (list_all is_closed (drop start bytes.now))) }
    ensures place { IfOk result (λ o. IfSome o (λ x. (start < x.1) × (x.1 ≤ length bytes.now))) }
    ensures fits { IfOk result (λ o. IfSome o (λ x. IsTrue (certificate_fits x.0))) }
{
    read_certificate_in(alloc, &mut SpareSteps::new(alloc), bytes, start)
}

/// The same, its steps in the rooms of others that are done with.
pub fn read_certificate_in(
    alloc: Global,
    spare: &mut SpareSteps,
    bytes: &[u8],
    start: usize,
) -> Result<Option<(Certificate, usize)>, CertificateRefusal>
    requires { start ≤ length bytes.now }
    ensures agrees { Agrees (λ o. o) certificate_fault result (model.read_certificate bytes.now start) }
    ensures none { IfOk result (λ o. (o ≡ None) ↔ IsTrue (list_all is_closed (drop start bytes.now))) }
    ensures place { IfOk result (λ o. IfSome o (λ x. (start < x.1) × (x.1 ≤ length bytes.now))) }
    ensures fits { IfOk result (λ o. IfSome o (λ x. IsTrue (certificate_fits x.0))) }
{
    first_certificate(alloc, spare, bytes, start)
}
