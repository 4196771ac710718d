// Document 004's hash of a name in a folder.
ghost use Rattle.std.specs.Prelude.{◌≡◌, ℕ, suc, ◌<◌};
ghost use Rattle.names.specs.Searching.{round, rounds, bucket};

use number::fields::byte;

// A byte of a name counts as 0 to 255.
fn unsigned(x: u8) -> u32
    ensures { result ≡ x }
{
    x as u32
}

fn stir(h: u32, a: u8, b: u8, c: u8, d: u8) -> u32
    ensures { result ≡ round h a b c d }
{
    h.rotate_right(1) ^ unsigned(a) ^ (unsigned(b) << 8) ^ (unsigned(c) << 16) ^ (unsigned(d) << 24)
}

// Round i, with bytes 4 i to 4 i + 3 of the name.
fn stir_at(h: u32, name: &[u8], i: usize) -> u32
    requires { i < 4 }
    ensures { (g : ℕ) → h ≡ rounds g name.now i → result ≡ rounds g name.now (suc i) }
{
    stir(
        h,
        byte(name, 4 * i),
        byte(name, 4 * i + 1),
        byte(name, 4 * i + 2),
        byte(name, 4 * i + 3),
    )
}

// The bucket of a name in a folder; a name of fewer than 16 bytes is hashed as if zeros followed.
pub fn bucket_of(name: &[u8], parent: u64, count: u64) -> u64
    requires { 0 < count }
    ensures { (result ≡ bucket name.now parent count) × (result < count) }
{
    let word = (parent % 0x1_0000_0000) as u32;
    let mut h = word ^ 0x091A_2B3C;
    for i in 0..4 {
        h = stir_at(h, name, i);
    }
    h as u64 % count
}
