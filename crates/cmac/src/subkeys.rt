// The subkeys (RFC 4493, 2.3). They are as secret as the key: none of these functions branches on what it is given.
ghost use Rattle.std.specs.Prelude.{◌≡◌, ◌+◌, ◌*◌, ◌/◌, ◌%◌, ◌≤◌, ◌<◌};
ghost use Rattle.aes.specs.Field.{◌⊕◌};
ghost use Rattle.cmac.specs.Cmac as Spec;

use aes::cipher::encrypt;

// The byte a, shifted by a bit to the left, with the first bit of the byte b after it.
fn moved(a: u8, b: u8) -> u8
    ensures { result ≡ a * 2 % 256 + b / 128 }
{
    (a << 1) + (b >> 7)
}

fn shifted(x: [u8; 16]) -> [u8; 16]
    ensures { result ≡ Spec.shifted x }
{
    let mut out = x;
    for i in 0..15 {
        out[i] = moved(x[i], x[i + 1]);
    }
    out[15] = moved(x[15], 0);
    out
}

// The last byte of a shifted block whose first byte was a.
fn reduced(last: u8, a: u8) -> u8
    ensures { (a < 128 → result ≡ last) × (128 ≤ a → result ≡ ◌⊕◌ last 0x87) }
{
    last ^ ((a >> 7) * 0x87)
}

// K2 from K1; and K1 from L.
pub fn doubled(x: [u8; 16]) -> [u8; 16]
    ensures { result ≡ Spec.doubled x }
{
    let mut s = shifted(x);
    s[15] = reduced(s[15], x[0]);
    s
}

// K1 of a key.
pub fn first(key: [u8; 16]) -> [u8; 16]
    ensures { result ≡ Spec.K1 key }
{
    doubled(encrypt(key, [0u8; 16]))
}
