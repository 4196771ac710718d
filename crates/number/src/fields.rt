// Little-endian fields at a place of a slice. Past the slice's end a byte reads as 0.
ghost use Rattle.std.specs.Prelude.{◌≡◌, ℕ, ◌+◌, ◌<◌, ◌^◌, get_or};
ghost use Rattle.number.specs.Fields.{le32, le64};

pub fn byte(s: &[u8], at: usize) -> u8
    ensures { result ≡ get_or s.now at 0 }
{
    // No method of the library: the image is read by this, and tests/stores follows it into each function that it is lent to.
    if at < s.len() { s[at] } else { 0 }
}

// N bytes from a place on.
fn bytes_at<const N: usize>(s: &[u8], at: usize) -> [u8; N]
    requires { at + N < 2 ^ 64 }
    ensures { (k : ℕ) → k < N → get_or result k 0 ≡ get_or s.now (at + k) 0 }
{
    let mut bytes = [0u8; N];
    for k in 0..N {
        bytes[k] = byte(s, at + k);
    }
    bytes
}

// A field that lies in the slice whole is read from a part as long as it is: so the compiler makes one load of it. One function for both widths was
// tried: with the bytes made first, reading takes 2.49 of the time.
pub fn field4(s: &[u8], at: usize) -> u32
    requires { at + 4 < 2 ^ 64 }
    ensures { result ≡ le32 s.now at }
{
    let end = at + 4;
    if end <= s.len() {
        u32::from_le_bytes(bytes_at(&s[at..end], 0))
    } else {
        u32::from_le_bytes(bytes_at(s, at))
    }
}

pub fn field8(s: &[u8], at: usize) -> u64
    requires { at + 8 < 2 ^ 64 }
    ensures { result ≡ le64 s.now at }
{
    let end = at + 8;
    if end <= s.len() {
        u64::from_le_bytes(bytes_at(&s[at..end], 0))
    } else {
        u64::from_le_bytes(bytes_at(s, at))
    }
}
