ghost use Rattle.std.specs.Prelude.{◌≡◌, ◌+◌, ◌<◌, ◌≤◌, pos, ◌≤ℤ◌, ◌*ℤ◌, length, All, IsTrue, IfSome};
ghost use Rattle.pip_model.specs.Numbers.{is_positive};
ghost use Rattle.pip_model.specs.Forms.{entry};
ghost use Rattle.pip_model.specs.Rows as model;
ghost use Rattle.row_laws.specs.Choices.{better, choice, candidates_from, IsCandidate};
ghost use Rattle.scaled_laws.specs.Scaled.{row_over};
ghost use Rattle.scaled_laws.specs.Decided.{IsDecided};
ghost use Rattle.lanes.specs.Narrow.{AreLanes, IsNarrow};
ghost use Rattle.lane_rows.specs.Laned.{numbers_of, undivided_in};

use lanes::Lanes;

// The product of two numbers.
#[inline(always)]
fn product(a: i32, b: i32) -> i64
    requires a { IsNarrow a }
    requires b { IsNarrow b }
    ensures { result ≡ a *ℤ b }
{
    (a as i64) * (b as i64)
}

// Whether the number is above 0.
#[inline(always)]
fn is_above(z: i32) -> bool
    ensures value { result ≡ is_positive z }
    ensures some { IsTrue result → pos 1 ≤ℤ z }
{
    z > 0
}

// The product for column k at a row, which is compared with that for column b.
#[inline(always)]
fn product_at(row: &Lanes, p: &Lanes, k: usize, b: usize) -> i64
    requires k { k < 7 }
    requires b { b < 7 }
    ensures { result ≡ entry row.now (k + 1) *ℤ entry p.now (b + 1) }
{
    product(row.get(k + 1), p.get(b + 1))
}

// Whether the product for column k is the smaller at a row, none where it is the same as that for column b.
#[inline(always)]
fn compare_at(row: &Lanes, p: &Lanes, k: usize, b: usize) -> Option<bool>
    requires k { k < 7 }
    requires b { b < 7 }
    ensures { IsDecided (entry row.now (k + 1) *ℤ entry p.now (b + 1)) (entry row.now (b + 1) *ℤ entry p.now (k + 1)) result }
{
    let of_k = product_at(row, p, k, b);
    let of_b = product_at(row, p, b, k);
    if of_k != of_b {
        Some(of_k < of_b)
    } else {
        None
    }
}

// Whether column k has the smaller list of quotients `a_ik / a_pk` over the first n rows than column b.
#[inline(always)]
fn is_better(rows: &[Lanes], n: usize, p: &Lanes, k: usize, b: usize) -> bool
    requires rows { All AreLanes rows.now }
    requires pivot { AreLanes p.now }
    requires few { n ≤ 7 }
    requires enough { n ≤ length rows.now }
    requires k { k < n }
    requires b { b < n }
    ensures { result ≡ model.is_better (undivided_in n (pos 1) n rows.now) (row_over n (pos 1) (numbers_of n p.now)) k b }
{
    for i in 0..n {
        match compare_at(&rows[i], p, k, b) {
            Some(is_better) => return is_better,
            None => {}
        }
    }
    false
}

// The better of the best so far and column k.
#[inline(always)]
fn better_of(rows: &[Lanes], n: usize, p: &Lanes, best: Option<usize>, k: usize) -> usize
    requires rows { All AreLanes rows.now }
    requires pivot { AreLanes p.now }
    requires few { n ≤ 7 }
    requires enough { n ≤ length rows.now }
    requires k { IsCandidate n (row_over n (pos 1) (numbers_of n p.now)) k }
    requires best { IfSome best (IsCandidate n
        (row_over n (pos 1) (numbers_of n p.now))) }
    requires before { IfSome best (λ b. b < k) }
    ensures value { result ≡ better (undivided_in n (pos 1) n rows.now)
        (row_over n (pos 1) (numbers_of n p.now)) best k }
    ensures candidate { IsCandidate n
        (row_over n (pos 1) (numbers_of n p.now)) result }
    ensures before { result ≤ k }
{
    match best {
        None => k,
        Some(b) => { if is_better(rows, n, p, k, b) { k } else { b } }
    }
}

// The best so far, and then column k, where the row is positive in it.
#[inline(always)]
fn next_best(rows: &[Lanes], n: usize, p: &Lanes, best: Option<usize>, k: usize) -> Option<usize>
    requires rows { All AreLanes rows.now }
    requires pivot { AreLanes p.now }
    requires few { n ≤ 7 }
    requires enough { n ≤ length rows.now }
    requires k { k < n }
    requires best { IfSome best (IsCandidate n
        (row_over n (pos 1) (numbers_of n p.now))) }
    requires before { IfSome best (λ b. b < k) }
    ensures value { choice (undivided_in n (pos 1) n rows.now)
        (row_over n (pos 1) (numbers_of n p.now)) result
        (candidates_from (row_over n (pos 1) (numbers_of n p.now)) (k + 1))
        ≡ choice (undivided_in n (pos 1) n rows.now)
        (row_over n (pos 1) (numbers_of n p.now)) best
        (candidates_from (row_over n (pos 1) (numbers_of n p.now)) k) }
    ensures candidate { IfSome result (IsCandidate n
        (row_over n (pos 1) (numbers_of n p.now))) }
    ensures before { IfSome result (λ b. b < k + 1) }
{
    if !is_above(p.get(k + 1)) {
        return best;
    }
    Some(better_of(rows, n, p, best, k))
}

// The column that enters where the row of the numbers p is below 0; none, without a loop, where no number is above 0.
#[inline(always)]
pub(crate) fn entering_in(rows: &[Lanes], n: usize, p: &Lanes) -> Option<usize>
    requires rows { All AreLanes rows.now }
    requires pivot { AreLanes p.now }
    requires few { n ≤ 7 }
    requires enough { n ≤ length rows.now }
    ensures value { result ≡ model.entering_of (undivided_in n (pos 1) n rows.now)
        (row_over n (pos 1) (numbers_of n p.now))
        (model.candidates (row_over n (pos 1) (numbers_of n p.now))) }
    ensures candidate { IfSome result (IsCandidate n
        (row_over n (pos 1) (numbers_of n p.now))) }
{
    if !p.minus().is_below() {
        return None;
    }
    let mut best = None;
    for k in 0..n {
        best = next_best(rows, n, p, best, k);
    }
    best
}
