ghost use Rattle.std.specs.Prelude.{◌≡◌, ◌+◌, ◌<◌, ◌≤◌, ◌^◌, length, drop, IfSome};
ghost use Rattle.pip_model.specs.Reading.{next_open as next_open_of, open_after as open_after_of, closing};

/// The place of the first `(` at or behind `start`, which is at most the number of bytes; none where there is none.
pub fn next_open(bytes: &[u8], start: usize) -> Option<usize>
    requires { start ≤ length bytes.now }
    ensures value { result ≡ next_open_of start (drop start bytes.now) }
    ensures order { IfSome result (λ place. (start ≤ place) × (place < length bytes.now)) }
{
    let (_, rest) = bytes.split_at(start);
    for (i, byte) in rest.iter().enumerate() {
        if *byte == b'(' {
            return Some(start + i);
        }
    }
    None
}

/// How many brackets are open behind one more byte, where so many were before it.
pub fn open_after(depth: usize, byte: u8) -> usize
    requires { depth + 1 < 2 ^ 64 }
    ensures value { result ≡ open_after_of depth byte }
    ensures bound { result ≤ depth + 1 }
{
    match byte {
        b'(' => depth + 1,
        b')' => depth.saturating_sub(1),
        _ => depth,
    }
}

/// The place behind the `)` that closes a `(` before `start`; none where the bytes end first.
#[tactic(auto, using(crate::proofs::Closing::closing_step))]
pub fn group_end(bytes: &[u8], start: usize) -> Option<usize>
    requires { start ≤ length bytes.now }
    ensures value { result ≡ closing 1 start (drop start bytes.now) }
    ensures order { IfSome result (λ after. (start < after) × (after ≤ length bytes.now)) }
{
    let (_, rest) = bytes.split_at(start);
    let mut depth = 1;
    for (i, byte) in rest.iter().enumerate() {
        if *byte == b'(' || *byte == b')' {
            depth = open_after(depth, *byte);
            if depth == 0 {
                return Some(start + i + 1);
            }
        }
    }
    None
}
