ghost use Rattle.std.specs.Prelude.{◌≡◌, ◌+◌, ◌≤◌, ◌<◌, [], length, vec_capacity, All, IfOk};
ghost use Rattle.pip_model.specs.Reading as model;
ghost use Rattle.affine_forms.specs.Checks.{Fits};
ghost use Rattle.text_reading.specs.Fronts.{LeavesLast};
ghost use Rattle.text_reading.specs.Steps.{fault_of, AreRead, IsRead};

use crate::fault::{Reads, TextFault};
use crate::spare::SpareRows;
use crate::steps::{expect, long_number, next_number};
use affine_forms::Form;
use std::alloc::Global;
use text_tokens::{Kind, skip_space, spaced_number};

// All of so many numbers but the last, read into an empty list with room for them, and a place from which the last is
// read.
#[inline(always)]
fn all_but_last(
    mut read: Vec<i128>,
    bytes: &[u8],
    count: usize,
    place: usize,
) -> Reads<Vec<i128>, TextFault>
    requires empty { read.items ≡ [] }
    requires room { count ≤ vec_capacity read }
    requires place { place ≤ length bytes.now }
    requires some { 0 < count }
    ensures reads { LeavesLast bytes.now count place result }
    ensures count { IfOk result (λ x. length x.0.items + 1 ≡ count) }
    ensures room { IfOk result (λ x. count ≤ vec_capacity x.0) }
    ensures fits { IfOk result (λ x. All Fits x.0.items) }
{
    let (_, mut rest) = bytes.split_at(skip_space(bytes, place));
    for _ in 0..count - 1 {
        match spaced_number(rest) {
            Some((entry, behind)) => {
                read.push_reserved(entry);
                rest = behind;
            }
            None => {
                let (entry, after) = long_number(bytes, bytes.len() - rest.len())?;
                read.push_reserved(entry);
                let (_, behind) = bytes.split_at(skip_space(bytes, after));
                rest = behind;
            }
        }
    }
    Ok((read, bytes.len() - rest.len()))
}

// So many numbers, read into an empty list with room for them, and the place behind them.
#[inline(always)]
fn numbers_in(
    read: Vec<i128>,
    bytes: &[u8],
    count: usize,
    place: usize,
) -> Reads<Vec<i128>, TextFault>
    requires empty { read.items ≡ [] }
    requires room { count ≤ vec_capacity read }
    requires place { place ≤ length bytes.now }
    ensures reads { AreRead (λ v. v.items) fault_of bytes.now place result (model.numbers bytes.now count place) }
    ensures count { IfOk result (λ x. length x.0.items ≡ count) }
    ensures fits { IfOk result (λ x. All Fits x.0.items) }
{
    if count == 0 {
        return Ok((read, place));
    }
    let (mut read, at) = all_but_last(read, bytes, count, place)?;
    let (entry, after) = next_number(bytes, at)?;
    read.push_reserved(entry);
    Ok((read, after))
}

/// So many numbers, and the place behind them.
#[inline(always)]
pub fn numbers(
    alloc: Global,
    bytes: &[u8],
    count: usize,
    place: usize,
) -> Reads<Vec<i128>, TextFault>
    requires { place ≤ length bytes.now }
    ensures reads { AreRead (λ v. v.items) fault_of bytes.now place result (model.numbers bytes.now count place) }
    ensures count { IfOk result (λ x. length x.0.items ≡ count) }
    ensures fits { IfOk result (λ x. All Fits x.0.items) }
{
    let room = Vec::with_capacity(alloc, count)?;
    numbers_in(room, bytes, count, place)
}

/// So many numbers between row brackets, and the place behind them.
#[inline(always)]
pub fn row(alloc: Global, bytes: &[u8], count: usize, place: usize) -> Reads<Vec<i128>, TextFault>
    requires { place ≤ length bytes.now }
    ensures reads { IsRead (λ v. v.items) fault_of bytes.now place result (model.row bytes.now count place) }
    ensures count { IfOk result (λ x. length x.0.items ≡ count) }
    ensures fits { IfOk result (λ x. All Fits x.0.items) }
{
    let at = expect(bytes, Kind::LeftRow, place)?;
    let (entries, at) = numbers(alloc, bytes, count, at)?;
    let after = expect(bytes, Kind::RightRow, at)?;
    Ok((entries, after))
}

/// The same, read into a room of the spare ones.
#[inline(always)]
pub fn row_in(
    spare: &mut SpareRows,
    bytes: &[u8],
    count: usize,
    place: usize,
) -> Reads<Vec<i128>, TextFault>
    requires { place ≤ length bytes.now }
    ensures reads { IsRead (λ v. v.items) fault_of bytes.now place result (model.row bytes.now count place) }
    ensures count { IfOk result (λ x. length x.0.items ≡ count) }
    ensures fits { IfOk result (λ x. All Fits x.0.items) }
{
    let at = expect(bytes, Kind::LeftRow, place)?;
    let room = spare.take(count)?;
    let (entries, at) = numbers_in(room, bytes, count, at)?;
    let after = expect(bytes, Kind::RightRow, at)?;
    Ok((entries, after))
}

// So many rows of `width` numbers as forms, read into spare rooms, and the place behind them.
fn rows_in(
    spare: &mut SpareRows,
    bytes: &[u8],
    count: usize,
    width: usize,
    place: usize,
) -> Reads<Vec<Form>, TextFault>
    requires place { place ≤ length bytes.now }
    requires width { 0 < width }
    ensures { AreRead (λ v. v.items) fault_of bytes.now place result (model.rows bytes.now count width place) }
{
    let mut forms = spare.list(count)?;
    let mut at = place;
    for _ in 0..count {
        let (entries, after) = row_in(spare, bytes, width, at)?;
        forms.push(Form::from_entries(entries))?;
        at = after;
    }
    Ok((forms, at))
}

/// So many rows of `width` numbers between brackets, as forms, read into spare rooms, and the place behind them.
pub fn block_in(
    spare: &mut SpareRows,
    bytes: &[u8],
    count: usize,
    width: usize,
    place: usize,
) -> Reads<Vec<Form>, TextFault>
    requires place { place ≤ length bytes.now }
    requires width { 0 < width }
    ensures { IsRead (λ v. v.items) fault_of bytes.now place result (model.block bytes.now count width place) }
{
    let at = expect(bytes, Kind::LeftParen, place)?;
    let (forms, at) = rows_in(spare, bytes, count, width, at)?;
    let after = expect(bytes, Kind::RightParen, at)?;
    Ok((forms, after))
}
