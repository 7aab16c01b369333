ghost use Rattle.std.specs.Prelude.{◌≡◌, ◌+◌, ◌*◌, ◌≤◌, ◌∷◌, [], ◌++◌, length, take, drop, IsTrue};

/// Adds the number where there is memory for it.
#[inline(always)]
pub fn push(numbers: &mut Vec<i64>, z: i64) -> bool
    ensures { IsTrue result → numbers.new.items ≡ numbers.old.items ++ z ∷ [] }
{
    numbers.push(z).is_ok()
}

/// Column k of n numbers, where columns stand one behind another.
#[inline(always)]
pub fn column(columns: &[i64], n: usize, k: usize) -> &[i64]
    requires { k * n + n ≤ length columns.now }
    ensures { result.now ≡ take n (drop (k * n) columns.now) }
{
    let (_, behind) = columns.split_at(k * n);
    let (column, _) = behind.split_at(n);
    column
}
