//! Bytes that are given portion by portion.

ghost use Rattle.std.specs.Prelude.{◌≡◌, ◌+◌, ◌-◌, ◌≤◌, ◌++◌, length, take, drop, min};

/// Puts the next bytes into the front of the buffer, at most `most` of them, and returns how many. `given` are given
/// already.
pub(crate) fn give(bytes: &[u8], given: usize, most: usize, buf: &mut [u8]) -> usize
    requires { given ≤ length bytes.now }
    ensures count { result ≡ min most (min (length buf.old) (length bytes.now - given)) }
    ensures moved { drop given bytes.now ≡ take result buf.new ++ drop (given + result) bytes.now }
{
    let left = &bytes[given..];
    let n = most.min(buf.len()).min(left.len());
    buf[..n].copy_from_slice(&left[..n]);
    n
}
