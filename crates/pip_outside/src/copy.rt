ghost use Rattle.std.specs.Prelude.{◌≡◌, ◌<◌, min, [], take, length};

// Copies a front of the bytes into the front of `buf`, as many as `most`, the room and the bytes allow, and answers how
// many.
pub(crate) fn copy_front(bytes: &[u8], most: usize, buf: &mut [u8]) -> usize
    requires { 0 < most }
    ensures count { result ≡ min most (min (length buf.new) (length bytes.now)) }
    ensures front { take result buf.new ≡ take result bytes.now }
    ensures end { result ≡ 0 → 0 < length buf.new → bytes.now ≡ [] }
{
    let count = most.min(buf.len()).min(bytes.len());
    buf[..count].copy_from_slice(&bytes[..count]);
    count
}
