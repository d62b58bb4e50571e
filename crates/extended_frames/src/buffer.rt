//! Bytes that are held in a buffer which is longer than they are, so that they are moved seldom.

ghost use Rattle.std.specs.Prelude.{◌≡◌, ◌+◌, ◌≤◌, length, take, drop};

// Copies some bytes from a place on to the front.
fn move_to_front(bytes: &mut [u8], start: usize, len: usize)
    requires apart { len ≤ start }
    requires within { start + len ≤ length bytes.old }
    ensures front { take len bytes.new ≡ take len (drop start bytes.old) }
    ensures kept { length bytes.new ≡ length bytes.old }
{
    let (front, back) = bytes.split_at_mut(start);
    front[..len].copy_from_slice(&back[..len]);
}

/// Makes room for `count` bytes after the `len` bytes that are held from `start` on, and answers
/// where these begin now. Where they are moved, they go to the buffer's front, and as many bytes as
/// they are or more were given away before.
pub fn make_room(bytes: &mut [u8], start: usize, len: usize, count: usize) -> usize
    requires within { start + len ≤ length bytes.old }
    requires twice { len + len + count ≤ length bytes.old }
    ensures held { take len (drop result bytes.new) ≡ take len (drop start bytes.old) }
    ensures room { result + len + count ≤ length bytes.new }
    ensures kept { length bytes.new ≡ length bytes.old }
{
    if count <= bytes.len() - (start + len) {
        return start;
    }
    move_to_front(bytes, start, len);
    0
}
