// Bytes, numbers and names, each ended by a byte, into a lent buffer. A writer counts on where the buffer ends, and writes nothing there: so the
// same code gives a text's length and writes it.
ghost use Rattle.std.specs.Prelude.{◌≡◌, List, ℕ, [], ◌∷◌, ◌+◌, ◌*◌, ◌≤◌, ◌<◌, length};
ghost use Rattle.listing.specs.Text.{Wrote, Writes, ended_by, decimal, over};
ghost use Rattle.listing.specs.Listing.{spelling};

use task::{NAME_MOST, Name};

// One byte, where the buffer reaches that far.
pub fn put_byte(buf: &mut [u8], at: usize, b: u8) -> usize
    requires { at < 1000000 }
    ensures { Wrote buf.old at (b ∷ []) result buf.new }
{
    if buf.len() <= at {
        return at + 1;
    }
    buf[at] = b;
    at + 1
}

// A run of bytes, and the byte that ends it.
pub fn put_bytes<'a>(buf: &'a mut [u8], at: usize, s: &'a [u8], end: u8) -> usize
    requires { at + length s.now < 1000000 }
    ensures { Wrote buf.old at (ended_by end s.now) result buf.new }
{
    let mut k = at;
    for b in s {
        k = put_byte(buf, k, *b);
    }
    put_byte(buf, k, end)
}

fn digit(m: u64) -> u8
    requires { m < 10 }
    ensures { result ≡ 48 + m }
{
    (48 + m) as u8
}

// A number in decimal digits.
pub fn put_number(buf: &mut [u8], at: usize, n: u64, end: u8) -> usize
    requires { at < 900000 }
    ensures { (Wrote buf.old at (ended_by end (decimal n)) result buf.new) × (result ≤ at + 21) }
{
    let mut d = [0u8; 20];
    let mut i: usize = 20;
    let mut m = n;
    while 10 <= m {
        i -= 1;
        d[i] = digit(m % 10);
        m = m / 10;
    }
    i -= 1;
    d[i] = digit(m);
    put_bytes(buf, at, &d[i..], end)
}

// A name's bytes, as many as its length says and it has.
pub fn spelled(name: &Name) -> &[u8]
    ensures { result.now ≡ spelling name.now }
{
    &name.bytes[..name.len.min(NAME_MOST)]
}

// A name's bytes, and the byte that ends them.
pub fn put_name(buf: &mut [u8], at: usize, name: Name, end: u8) -> usize
    requires { at < 900000 }
    ensures { (Wrote buf.old at (ended_by end (spelling name)) result buf.new) × (result ≤ at + 25) }
{
    put_bytes(buf, at, spelled(&name), end)
}

// A text's length, by a writer that writes nothing past a buffer's end. It is written where the buffer is that long, and the bytes beyond it stay; else no byte is
// written. The writer runs once where the buffer has room for any text it may write; else it first counts, over none of the buffer.
pub fn write_whole<F: Fn(&mut [u8]) -> usize>(buf: &mut [u8], most: usize, put: F) -> usize
    requires { F.IsAlwaysCallable put }
    ensures { (text : List ℕ) → Writes (F.post put) text most → (result ≡ length text) × (buf.new ≡ over text buf.old) × (result ≤ most) }
{
    if most <= buf.len() {
        return put(buf);
    }
    let n = put(&mut buf[..0]);
    if buf.len() < n {
        return n;
    }
    put(buf)
}
