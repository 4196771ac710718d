// A running digest as its caller keeps it: 104 bytes, the eight words of its hash value, its block, and the count of all bytes.
ghost use Rattle.std.specs.Prelude.{◌≡◌, ℕ, ◌+◌, ◌*◌, ◌≤◌, ◌<◌, length, get_or};
ghost use Rattle.number.specs.Fields.{le32};
ghost use Rattle.boundary.specs.Digests.{running_of, StateLeft};

use layout::Refusal;
use number::fields::{field4, field8};
use number::runs::copy_into;
use sha256::running::Running;
use signing::blocks::put_field;

fn words_of(bytes: [u8; 104]) -> [u32; 8]
    ensures { result ≡ (running_of bytes).hash }
{
    let mut hash = [0u32; 8];
    for (k, word) in hash.iter_mut().enumerate() {
        *word = field4(&bytes, 4 * k);
    }
    hash
}

// The running digest that the bytes are.
pub fn running_of(bytes: [u8; 104]) -> Running
    ensures { result ≡ running_of bytes }
{
    let hash = words_of(bytes);
    let mut rest = [0u8; 64];
    rest.copy_from_slice(&bytes[32..96]);
    let total = field8(&bytes, 96);
    Running { hash, rest, total }
}

// Stores a word: it reads back, and the words before it are as they were.
fn put_word(bytes: &mut [u8], at: usize, word: u32)
    requires { at + 4 ≤ length bytes.old }
    ensures { (le32 bytes.new at ≡ word) × ((k : ℕ) → k + 4 ≤ at → le32 bytes.new k ≡ le32 bytes.old k) }
{
    put_field(bytes, at, 4, word as u64);
}

fn put_words(bytes: &mut [u8], hash: [u32; 8])
    requires { 32 ≤ length bytes.old }
    ensures { (k : ℕ) → k < 8 → le32 bytes.new (4 * k) ≡ get_or hash k 0 }
{
    for (k, word) in hash.iter().enumerate() {
        put_word(bytes, 4 * k, *word);
    }
}

// The arrays are parameters, so that the proof knows how long they are and what their words are below.
fn join(hash: [u32; 8], rest: [u8; 64], total: u64) -> [u8; 104]
    ensures { running_of result ≡ record { hash = hash; rest = rest; total = total } }
{
    let mut bytes = [0u8; 104];
    put_words(&mut bytes, hash);
    copy_into(&mut bytes, 32, &rest);
    put_field(&mut bytes, 96, 8, total);
    bytes
}

// Its bytes.
pub fn state_bytes(running: Running) -> [u8; 104]
    ensures { running_of result ≡ running }
{
    let hash = running.hash;
    let rest = running.rest;
    join(hash, rest, running.total)
}

// The bytes after a piece: of an accepted one the digest after it, else those before.
pub fn state_left(fed: Result<Running, Refusal>, before: [u8; 104]) -> [u8; 104]
    ensures { StateLeft fed before result }
{
    match fed {
        Ok(running) => state_bytes(running),
        Err(_) => before,
    }
}
