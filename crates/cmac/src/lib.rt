// AES-CMAC (RFC 4493): the code of a message of any length, under a key of 16 bytes.
//
// No contract speaks of time, and the time of a call may depend on the key and on the message (see the crate aes).
#![tactic(auto)]

ghost use Rattle.std.specs.Prelude.{◌≡◌, ◌++◌, ◌+◌, ◌-◌, ◌*◌, ◌/◌, ◌≤◌, ◌<◌, max, eqb, length, replicate};
ghost use Rattle.cmac.specs.Cmac as Spec;

use aes::cipher::encrypt;
use aes::state::xor;
use number::runs::copy_into;

pub mod subkeys;

// Up to a block of bytes, with zeros after them.
fn filled(bytes: &[u8]) -> [u8; 16]
    requires { length bytes.now ≤ 16 }
    ensures { result ≡ bytes.now ++ replicate (16 - length bytes.now) 0 }
{
    let mut block = [0u8; 16];
    copy_into(&mut block, 0, bytes);
    block
}

fn padded(bytes: &[u8]) -> [u8; 16]
    requires { length bytes.now < 16 }
    ensures { result ≡ Spec.padding bytes.now }
{
    let n = bytes.len();
    let mut block = filled(bytes);
    block[n] = 0x80;
    block
}

// The last block, which has the bytes that are left.
fn last_block(key: [u8; 16], rest: &[u8]) -> [u8; 16]
    requires { length rest.now ≤ 16 }
    ensures { result ≡ Spec.last_block key (eqb (length rest.now) 16) rest.now }
{
    let k1 = subkeys::first(key);
    let k2 = subkeys::doubled(k1);
    if rest.len() == 16 {
        xor(filled(rest), k1)
    } else {
        xor(padded(rest), k2)
    }
}

// Whole blocks, chained.
fn chain(key: [u8; 16], front: &[u8]) -> [u8; 16]
    ensures { result ≡ Spec.chained key front.now (length front.now / 16) }
{
    let mut x = [0u8; 16];
    for block in front.chunks_exact(16) {
        let y = xor(x, filled(block));
        // By a name of its own: the check does not cover a call whose result is laid in an array that is there.
        let z = encrypt(key, y);
        x = z;
    }
    x
}

// How many blocks a message of n bytes has before the last.
fn before_last(n: usize) -> usize
    ensures { result ≡ max 1 ((n + 15) / 16) - 1 }
{
    n.saturating_sub(1) / 16
}

// The code of a message.
pub fn code(key: [u8; 16], message: &[u8]) -> [u8; 16]
    ensures { result ≡ Spec.cmac key message.now }
{
    let n = before_last(message.len());
    let (front, rest) = message.split_at(n * 16);
    let x = chain(key, front);
    let last = last_block(key, rest);
    encrypt(key, xor(last, x))
}
