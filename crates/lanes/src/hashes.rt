// The hash values of all lanes: the initial one, and the digests of the last.
ghost use Rattle.std.specs.Prelude.{◌≡◌, ◌<◌, ◌≤◌, length};
ghost use Rattle.lanes.specs.Flat.{Started, hash_of, digests_of};

use sha256::message::{bytes_of, initial};

// Four words of the initial hash value, down from one of them, each in every lane.
pub fn start(x: &mut [u32; 544], from: usize)
    requires { (length x.old ≡ 544) × (3 ≤ from) × (from < 8) }
    ensures { (length x.new ≡ 544) × (Started x.new from 32) }
{
    let hash = initial();
    for i in 0..32 {
        x[i] = hash[from - i / 8];
    }
}

// The hash value of a lane.
fn hash_of(a: &[u32; 544], e: &[u32; 544], lane: usize) -> [u32; 8]
    requires { lane < 8 }
    ensures { result ≡ hash_of a.now e.now lane }
{
    [
        a[lane + 24],
        a[lane + 16],
        a[lane + 8],
        a[lane],
        e[lane + 24],
        e[lane + 16],
        e[lane + 8],
        e[lane],
    ]
}

// The digests of all lanes, one after another.
pub fn digests_of(a: &[u32; 544], e: &[u32; 544]) -> [u8; 256]
    ensures { result ≡ digests_of a.now e.now 8 }
{
    let mut out = [0u8; 256];
    for lane in 0..8 {
        out[lane * 32..lane * 32 + 32].copy_from_slice(&bytes_of(hash_of(a, e, lane)));
    }
    out
}
