ghost use Rattle.std.specs.Prelude.{◌≡◌, ◌<◌, ◌++◌, codes};
ghost use Rattle.std.specs.Fmt.{decimal, signed_decimal};
ghost use Rattle.pip_model.specs.TreeText.{spell_numbers, spell_form};
ghost use Rattle.text_printing.specs.Printing.{Appends, Begins, spell_entry};

use itoa::Buffer;
use std::alloc::AllocError;

/// Appends the numbers between row brackets, a blank before each.
pub fn put_row(out: &mut Vec<u8>, numbers: &[i128]) -> Result<(), AllocError>
    ensures ok { Appends (spell_form numbers.now) out.old.items out.new.items result }
    ensures kept { Begins out.old.items out.new.items }
{
    put_mark(out, b"#[")?;
    put_numbers(out, numbers)?;
    put_mark(out, b"]")
}

fn put_numbers(out: &mut Vec<u8>, numbers: &[i128]) -> Result<(), AllocError>
    ensures ok { Appends (spell_numbers numbers.now) out.old.items out.new.items result }
    ensures kept { Begins out.old.items out.new.items }
{
    for number in numbers {
        put_entry(out, *number)?;
    }
    Ok(())
}

// Appends a blank and a digit.
#[tactic(auto, using(std::proofs::lemmas::Fmt::decimal_digit))]
fn put_digit(out: &mut Vec<u8>, digit: u8) -> Result<(), AllocError>
    requires { digit < 10 }
    ensures ok { Appends (codes " " ++ decimal digit) out.old.items out.new.items result }
    ensures kept { Begins out.old.items out.new.items }
{
    put_mark(out, &[b' ', b'0' + digit])
}

// Appends a blank and the opposite of a digit.
#[tactic(auto, using(std::proofs::lemmas::Fmt::decimal_digit))]
fn put_opposite(out: &mut Vec<u8>, digit: u8) -> Result<(), AllocError>
    requires { digit < 10 }
    ensures ok { Appends (codes " -" ++ decimal digit) out.old.items out.new.items result }
    ensures kept { Begins out.old.items out.new.items }
{
    put_mark(out, &[b' ', b'-', b'0' + digit])
}

// Appends a blank and a number, part by part.
fn put_parts(out: &mut Vec<u8>, entry: i128) -> Result<(), AllocError>
    ensures ok { Appends (spell_entry entry) out.old.items out.new.items result }
    ensures kept { Begins out.old.items out.new.items }
{
    put_mark(out, b" ")?;
    put_number(out, entry)
}

/// Appends a blank and a number.
#[tactic(auto, using(crate::proofs::Spellings::entry_digit, crate::proofs::Spellings::entry_opposite))]
#[inline(always)]
pub fn put_entry(out: &mut Vec<u8>, entry: i128) -> Result<(), AllocError>
    ensures ok { Appends (spell_entry entry) out.old.items out.new.items result }
    ensures kept { Begins out.old.items out.new.items }
{
    if 0 <= entry && entry < 10 {
        put_digit(out, entry as u8)
    } else if -10 < entry && entry < 0 {
        put_opposite(out, (-entry) as u8)
    } else {
        put_parts(out, entry)
    }
}

/// Appends a number in decimal.
pub fn put_number(out: &mut Vec<u8>, number: i128) -> Result<(), AllocError>
    ensures ok { Appends (signed_decimal number) out.old.items out.new.items result }
    ensures kept { Begins out.old.items out.new.items }
{
    put(out, Buffer::new().format(number).as_bytes())
}

/// Appends the bytes.
#[inline(always)]
pub fn put(out: &mut Vec<u8>, bytes: &[u8]) -> Result<(), AllocError>
    ensures ok { Appends bytes.now out.old.items out.new.items result }
    ensures kept { Begins out.old.items out.new.items }
{
    out.extend_from_slice(bytes)
}

/// Appends a few bytes, one by one: no more than marks and short words, for which a copy costs more.
#[inline(always)]
pub fn put_mark(out: &mut Vec<u8>, bytes: &[u8]) -> Result<(), AllocError>
    ensures ok { Appends bytes.now out.old.items out.new.items result }
    ensures kept { Begins out.old.items out.new.items }
{
    out.reserve(bytes.len())?;
    for byte in bytes {
        out.push_reserved(*byte);
    }
    Ok(())
}
