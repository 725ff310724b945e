//! Bytes that a read gives.

ghost use Rattle.std.specs.Prelude.{◌≡◌, length, take, min};

/// Copies at most so many bytes to the front of a buffer, and tells how many.
pub fn copy_front(bytes: &[u8], buf: &mut [u8], most: usize) -> usize
    ensures count { result ≡ min (min (length bytes.now) (length buf.old)) most }
    ensures copied { take result buf.new ≡ take result bytes.now }
{
    let count = bytes.len().min(buf.len()).min(most);
    buf[..count].copy_from_slice(&bytes[..count]);
    count
}
