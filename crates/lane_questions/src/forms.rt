ghost use Rattle.std.specs.Prelude.{◌≡◌, ◌^◌, ◌<◌, ◌≤◌, pos, ◌≤ℤ◌, [], ◌∷◌, ◌++◌, length, take, drop, IfSome, OnOk, IsTrue, IsFalse};
ghost use Rattle.pip_model.specs.Numbers.{gcd as gcd_of_two, gcd_of, floor_div as floor_div_of};
ghost use Rattle.pip_model.specs.Forms.{tighten, floor_divided};
ghost use Rattle.affine_forms.specs.Forms.{IsForm};
ghost use Rattle.form_laws.specs.Bounds.{norm};
ghost use Rattle.lanes.specs.Narrow.{AreLanes, IsNarrow};
ghost use Rattle.lane_questions.specs.InLanes.{lanes_of, form_in, all_lanes, AreFirst, AreWithin};

use affine_forms::{Form, WantOfMemory};
use lanes::Lanes;
use short_numbers::short_gcd;
use std::alloc::Global;
use std::marker::Model;

/// Forms in lanes, and a number that no form's sum of sizes passes. Contracts see the forms and that number.
#[derive(Drop)]
pub struct LaneForms {
    forms: Vec<Lanes>,
    norm: u32,
}

impl Model for LaneForms {
    ghost use Rattle.lane_questions.specs.InLanes.{NormedForms, AreNormed};

    ghost Value = { NormedForms };

    ghost view = { λ s. record { forms = s.forms.items; norm = s.norm } };

    ghost invariant = { λ s. AreNormed s.forms.items s.norm };
}

impl LaneForms {
    /// No forms. It takes no memory.
    pub fn new(alloc: Global) -> LaneForms
        ensures { result.forms ≡ [] }
    {
        LaneForms {
            forms: Vec::new(alloc),
            norm: 0,
        }
    }

    /// How many forms there are.
    #[inline(always)]
    pub fn len(&self) -> usize
        ensures { result ≡ length self.now.forms }
    {
        self.forms.len()
    }

    /// The forms.
    #[inline(always)]
    pub fn as_slice(&self) -> &[Lanes]
        ensures value { result.now ≡ self.now.forms }
        ensures within { AreWithin self.now.norm result.now }
    {
        &self.forms
    }

    /// A number that no form's sum of sizes passes.
    #[inline(always)]
    pub fn norm(&self) -> u32
        ensures value { result ≡ self.now.norm }
        ensures small { result < 2 ^ 30 }
    {
        self.norm
    }

    /// Becomes no forms. The room stays.
    pub fn clear(&mut self)
        ensures { self.new.forms ≡ [] }
    {
        self.forms.clear();
        self.norm = 0;
    }

    /// Keeps the first so many forms.
    pub fn truncate(&mut self, number: usize)
        ensures { self.new.forms ≡ take number self.old.forms }
    {
        self.forms.truncate(number);
    }

    /// Adds a form, where its sum of sizes is below 2^30 and there is memory; else nothing.
    pub fn push(&mut self, form: Lanes) -> bool
        ensures added { IsTrue result → self.new.forms ≡ self.old.forms ++ form ∷ [] }
        ensures same { IsFalse result → self.new ≡ self.old }
    {
        let Some(size) = small_norm(form) else {
            return false;
        };
        if self.forms.push(form).is_err() {
            return false;
        }
        self.norm = self.norm.max(size);
        true
    }

    /// Adds the forms of a context that are not there yet, up to the first that cannot be; whether all are there.
    pub fn read(&mut self, forms: &[Form]) -> bool
        requires { AreFirst forms.now self.old.forms }
        ensures first { AreFirst forms.now self.new.forms }
        ensures all { IsTrue result → self.new.forms ≡ all_lanes forms.now }
    {
        for i in self.forms.len()..forms.len() {
            let Some(form) = in_lanes(forms[i].as_slice()) else {
                return false;
            };
            if !self.push(form) {
                return false;
            }
        }
        true
    }
}

/// The sum of a form's sizes, where it is below 2^30.
#[inline(always)]
pub fn small_norm(form: Lanes) -> Option<u32>
    ensures value { IfSome result (λ m. m ≡ norm form) }
    ensures small { IfSome result (λ m. m < 2 ^ 30) }
    ensures lanes { AreLanes form }
{
    let mut sum = form.get(0).unsigned_abs() as u64;
    for k in 1..8 {
        sum += form.get(k).unsigned_abs() as u64;
    }
    if sum < 1073741824 {
        Some(sum as u32)
    } else {
        None
    }
}

/// The form of these entries in lanes; none where it has more than 7 places or a number of more than 31 bits.
#[inline(always)]
pub fn in_lanes(entries: &[i128]) -> Option<Lanes>
    requires { IsForm entries.now }
    ensures value { IfSome result (λ form. form ≡ lanes_of entries.now) }
    ensures few { IfSome result (λ form. length entries.now ≤ 8) }
{
    let places = entries.len() - 1;
    if places > 7 {
        return None;
    }
    let mut lanes = Lanes::zeros().with(0, narrow(entries[places])?);
    for k in 0..places {
        lanes.set(k + 1, narrow(entries[k])?);
    }
    Some(lanes)
}

/// The tightened form of these entries in lanes, where `in_lanes` gives one.
// It is called, and not taken in: what it gives comes by memory, from where whole rows are read, and not number by number.
#[inline(never)]
pub fn tightened(entries: &[i128]) -> Option<Lanes>
    requires { IsForm entries.now }
    ensures value { IfSome result (λ form. form ≡ lanes_of (tighten entries.now)) }
    ensures few { IfSome result (λ form. length entries.now ≤ 8) }
{
    let form = in_lanes(entries)?;
    let d = divisor(form);
    if d <= 1 {
        return Some(form);
    }
    Some(divided(form, d))
}

// Whether a number behind the first is 1 or -1.
#[inline(always)]
fn has_unit(form: Lanes) -> bool
    ensures { IsTrue result → gcd_of (drop 1 form) ≡ pos 1 }
{
    for k in 1..8 {
        if form.get(k).unsigned_abs() == 1 {
            return true;
        }
    }
    false
}

// The greatest common divisor of the numbers behind the first, one by one.
fn common(form: Lanes) -> i32
    ensures value { result ≡ gcd_of (drop 1 form) }
    ensures low { pos 0 ≤ℤ result }
{
    let mut found = 0;
    for k in 1..8 {
        found = gcd(found, form.get(k));
    }
    found
}

// The greatest common divisor of the numbers behind the first.
#[inline(always)]
fn divisor(form: Lanes) -> i32
    ensures value { result ≡ gcd_of (drop 1 form) }
    ensures low { pos 0 ≤ℤ result }
{
    if has_unit(form) { 1 } else { common(form) }
}

// The greatest common divisor of narrow numbers.
#[inline(always)]
fn gcd(a: i32, b: i32) -> i32
    requires a { IsNarrow a }
    requires b { IsNarrow b }
    ensures value { result ≡ gcd_of_two a b }
    ensures low { pos 0 ≤ℤ result }
    ensures narrow { IsNarrow result }
{
    short_gcd(a as i64, b as i64) as i32
}

// The numbers over a number of at least 1, rounded down.
#[inline(always)]
fn divided(form: Lanes, d: i32) -> Lanes
    requires { pos 1 ≤ℤ d }
    ensures { result ≡ floor_divided d form }
{
    let mut made = form;
    for k in 0..8 {
        made = made.with(k, floor_div(made.get(k), d));
    }
    made
}

// The quotient by a number of at least 1, rounded down.
#[inline(always)]
fn floor_div(z: i32, d: i32) -> i32
    requires positive { pos 1 ≤ℤ d }
    requires narrow { IsNarrow z }
    ensures value { result ≡ floor_div_of z d }
    ensures narrow { IsNarrow result }
{
    z.div_euclid(d)
}

/// Puts the form over so many places behind the numbers of a list.
pub fn write_form(room: &mut Vec<i128>, form: Lanes, places: usize) -> Result<(), WantOfMemory>
    requires { places ≤ 7 }
    ensures value { OnOk result (room.new.items ≡ room.old.items ++ form_in places form) }
    ensures form { OnOk result (IsForm (form_in places form)) }
{
    room.reserve(places + 1)?;
    for k in 0..places {
        room.push(form.get(k + 1) as i128)?;
    }
    room.push(form.get(0) as i128)?;
    Ok(())
}

// The number, where it has 31 bits.
#[inline(always)]
fn narrow(z: i128) -> Option<i32>
    ensures value { IfSome result (λ x. x ≡ z) }
    ensures narrow { IfSome result IsNarrow }
{
    if -1073741824 < z && z < 1073741824 {
        Some(z as i32)
    } else {
        None
    }
}
