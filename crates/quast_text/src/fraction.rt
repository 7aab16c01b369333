ghost use Rattle.std.specs.Prelude.{◌≡◌, ◌≤◌, ◌<◌, ◌≤ℤ◌, pos, map, length, All, IfOk};
ghost use Rattle.pip_model.specs.Numbers.{lcm as lcm_of};
ghost use Rattle.pip_model.specs.TreeText.{lowest_terms as lowest_terms_of, fractions as fractions_of, common_denominators, last_of};
ghost use Rattle.pip_model.specs.Agreement.{Agrees, IsChecked};
ghost use Rattle.affine_forms.specs.Checks.{Fits, IsFitted, is_overflow, is_form_overflow};
ghost use Rattle.text_reading.specs.Steps.{AreRead, IsRead};
ghost use Rattle.quast_text.specs.Faults.{text_fault};
ghost use Rattle.quast_text.specs.Fractions.{IsFraction, next_fraction, numerator_of};

use crate::refusal::TextRefusal;
use affine_forms::{FormRefusal, Overflow, floor_div, gcd, times};
use std::alloc::Global;
use std::marker::Model;
use text_reading::Reads;
use text_tokens::{Kind, token};

// A fraction in lowest terms, its denominator at least 1.
#[derive(Drop)]
pub(crate) struct Fraction {
    numerator: i128,
    denominator: i128,
}

impl Model for Fraction {
    ghost use Rattle.std.specs.Prelude.{ℤ};
    ghost use Rattle.quast_text.specs.Fractions.{IsFraction};

    ghost Value = { ℤ × ℤ };

    ghost view = { λ f. (f.numerator, f.denominator) };

    ghost invariant = { λ f. IsFraction (f.numerator, f.denominator) };
}

impl Fraction {
    fn new(numerator: i128, denominator: i128) -> Fraction
        requires { IsFraction (numerator, denominator) }
        ensures { result ≡ (numerator, denominator) }
    {
        Fraction {
            numerator,
            denominator,
        }
    }

    fn numerator(&self) -> i128
        ensures value { result ≡ self.now.0 }
        ensures fits { Fits result }
    {
        self.numerator
    }

    fn denominator(&self) -> i128
        ensures value { result ≡ self.now.1 }
        ensures positive { pos 1 ≤ℤ result }
        ensures fits { Fits result }
    {
        self.denominator
    }
}

// n over d in lowest terms, for a token between these places.
fn lowest_terms(start: usize, n: i128, d: i128, after: usize) -> Reads<Fraction, TextRefusal>
    requires low { pos 0 ≤ℤ d }
    requires n_fits { Fits n }
    requires d_fits { Fits d }
    ensures agrees { Agrees (λ x. x) text_fault result (lowest_terms_of start n d after) }
    ensures place { IfOk result (λ x. x.1 ≡ after) }
{
    if d == 0 {
        return Err(TextRefusal::Syntax(start));
    }
    let divisor = gcd(n, d);
    let fraction = Fraction::new(floor_div(n, divisor), floor_div(d, divisor));
    Ok((fraction, after))
}

// The number or fraction that is the next token, and the place behind it.
fn read_fraction(bytes: &[u8], place: usize) -> Reads<Fraction, TextRefusal>
    requires { place ≤ length bytes.now }
    ensures { IsRead (λ f. f) text_fault bytes.now place result (next_fraction bytes.now place) }
{
    let token = token(bytes, place);
    match token.kind {
        Kind::Number(number) => Ok((Fraction::new(number, 1), token.after)),
        Kind::Fraction(n, d) => lowest_terms(token.start, n, d, token.after),
        Kind::WideNumber => Err(TextRefusal::Wide(token.start)),
        Kind::WideFraction => Err(TextRefusal::Wide(token.start)),
        _ => Err(TextRefusal::Syntax(token.start)),
    }
}

// So many numbers or fractions, and the place behind them.
pub(crate) fn read_fractions(
    alloc: Global,
    bytes: &[u8],
    count: usize,
    place: usize,
) -> Reads<Vec<Fraction>, TextRefusal>
    requires { place ≤ length bytes.now }
    ensures reads { AreRead (λ v. v.items) text_fault bytes.now place result (fractions_of bytes.now count place) }
    ensures count { IfOk result (λ x. length x.0.items ≡ count) }
{
    let mut read = Vec::with_capacity(alloc, count)?;
    let mut at = place;
    for _ in 0..count {
        let (entry, after) = read_fraction(bytes, at)?;
        read.push(entry)?;
        at = after;
    }
    Ok((read, at))
}

// The least common multiple of two numbers of at least 1.
fn lcm(a: i128, b: i128) -> Result<i128, Overflow>
    requires a { pos 1 ≤ℤ a }
    requires b { pos 1 ≤ℤ b }
    requires a_fits { Fits a }
    requires b_fits { Fits b }
    ensures value { IsFitted (lcm_of a b) result }
    ensures positive { IfOk result (λ z. pos 1 ≤ℤ z) }
{
    let product = times(a, floor_div(b, gcd(a, b)))?;
    Ok(product)
}

// The least common multiple of the denominators.
pub(crate) fn common_denominator(fractions: &[Fraction]) -> Result<i128, Overflow>
    ensures listed { IsChecked is_overflow (common_denominators (pos 1) fractions.now) result }
    ensures value { IfOk result (λ d. d ≡ last_of (pos 1) (common_denominators (pos 1) fractions.now)) }
    ensures positive { IfOk result (λ d. pos 1 ≤ℤ d) }
    ensures fits { IfOk result Fits }
{
    let mut common = 1;
    for fraction in fractions {
        common = lcm(common, fraction.denominator())?;
    }
    Ok(common)
}

// The numerators over a common denominator.
pub(crate) fn numerators(
    alloc: Global,
    fractions: &[Fraction],
    common: i128,
) -> Result<Vec<i128>, FormRefusal>
    requires { Fits common }
    ensures listed { IsChecked is_form_overflow (map (numerator_of common) fractions.now) result }
    ensures value { IfOk result (λ v. v.items ≡ map (numerator_of common) fractions.now) }
    ensures fits { IfOk result (λ v. All Fits v.items) }
{
    let mut found = Vec::with_capacity(alloc, fractions.len())?;
    for fraction in fractions {
        let over = floor_div(common, fraction.denominator());
        let numerator = times(fraction.numerator(), over)?;
        found.push(numerator)?;
    }
    Ok(found)
}
