ghost use Rattle.std.specs.Prelude.{◌≡◌, ◌+◌, ◌<◌, ◌≤◌, [], ◌∷◌, ◌++◌, length, vec_len, vec_capacity};

use crate::kept::Kept;

// Appends the kept row, for which there is room.
pub(crate) fn append_kept(kept: &mut Vec<Kept>, one: Kept)
    requires room { vec_len kept.old < vec_capacity kept.old }
    ensures items { kept.new.items ≡ kept.old.items ++ one ∷ [] }
    ensures count { length kept.new.items ≡ length kept.old.items + 1 }
    ensures room { vec_capacity kept.old ≤ vec_capacity kept.new }
{
    kept.push_reserved(one);
}

// Appends the kept rows, for which there is room.
pub(crate) fn append_all_kept(kept: &mut Vec<Kept>, others: &[Kept])
    requires room { vec_len kept.old + length others.now ≤ vec_capacity kept.old }
    ensures items { kept.new.items ≡ kept.old.items ++ others.now }
    ensures room { vec_capacity kept.old ≤ vec_capacity kept.new }
{
    match kept.extend_from_slice(others) {
        Ok(()) => {}
        Err(_) => unreachable!(),
    }
}
