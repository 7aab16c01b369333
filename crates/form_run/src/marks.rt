ghost use Rattle.std.specs.Prelude.{◌≡◌, pos, ◌-ℤ◌, ◌*ℤ◌, ◌≤ℤ◌, unsigned_abs, length, IsTrue, IfSome};
ghost use Rattle.form_run.specs.Marks.{IsMark, IsNear, StaysAbove};

use form_basis::wide_product;
use std::alloc::Global;

// What is known of a block of forms since it was looked at: the norm of none without its constant is greater, and at the
// vertex none was less than that over the scale.
#[derive(Drop)]
pub(crate) struct Mark {
    pub(crate) norm: u64,
    pub(crate) least: i64,
    pub(crate) scale: i64,
    pub(crate) vertex: Vec<i64>,
}

// The size of the difference of two products.
fn difference(a: i64, x: i64, b: i64, y: i64) -> u128
    ensures { result ≡ unsigned_abs (a *ℤ x -ℤ b *ℤ y) }
{
    wide_product(a, x).abs_diff(wide_product(b, y))
}

// How far the vertex is from that of the mark: over both scales no place's numbers differ by more.
fn distance(mark: &Mark, vertex: &[i64], scale: i64) -> u128
    requires { length mark.now.vertex.items ≡ length vertex.now }
    ensures { IsNear mark.now vertex.now scale result }
{
    let mut most: u128 = 0;
    for i in 0..vertex.len() {
        let here = difference(vertex[i], mark.scale, mark.vertex[i], scale);
        if most < here {
            most = here;
        }
    }
    most
}

// Whether no form of the mark's block is below 0 at the vertex, as far as its distance tells.
pub(crate) fn stays_above(mark: &Mark, vertex: &[i64], scale: i64) -> bool
    requires mark { IsMark (length vertex.now) mark.now }
    requires scale { pos 1 ≤ℤ scale }
    ensures { IsTrue result → StaysAbove mark.now vertex.now scale }
{
    match distance(mark, vertex, scale).checked_mul(mark.norm as u128) {
        None => false,
        Some(most) => most <= (scale as u128) * (mark.least as u128),
    }
}

// A mark, where there is memory for it.
pub(crate) fn new_mark(
    alloc: Global,
    norm: u64,
    least: i64,
    vertex: &[i64],
    scale: i64,
) -> Option<Mark>
    ensures norm { IfSome result (λ m. m.norm ≡ norm) }
    ensures least { IfSome result (λ m. m.least ≡ least) }
    ensures scale { IfSome result (λ m. m.scale ≡ scale) }
    ensures vertex { IfSome result (λ m. m.vertex.items ≡ vertex.now) }
{
    let mut numbers = Vec::new(alloc);
    if numbers.extend_from_slice(vertex).is_err() {
        return None;
    }
    Some(Mark {
        norm,
        least,
        scale,
        vertex: numbers,
    })
}

// Makes the mark one of this vertex.
pub(crate) fn renew(mark: &mut Mark, least: i64, vertex: &[i64], scale: i64)
    requires { length mark.old.vertex.items ≡ length vertex.now }
    ensures norm { mark.new.norm ≡ mark.old.norm }
    ensures least { mark.new.least ≡ least }
    ensures scale { mark.new.scale ≡ scale }
    ensures vertex { mark.new.vertex.items ≡ vertex.now }
{
    mark.least = least;
    mark.scale = scale;
    mark.vertex.copy_from_slice(vertex);
}
