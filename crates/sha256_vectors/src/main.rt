// Prints the digests of known messages, one to a line. What it must print is in ../stdout, which tests/make_sha256_vectors.py makes with
// another implementation; the comments there say where each message is from.
#![tactic(auto)]

ghost use Rattle.std.specs.Prelude.{◌≡◌, ◌+◌, ◌<◌, ◌≤◌, length};
ghost use Rattle.sha256.specs.Sha256.{sha256 as SHA-256};

use sha256::running;
use std::io;

// How many bytes the message of the rule has.
const LENGTH: usize = 6400;

// Bytes have no `Display`, and a type for them would be made for this line alone.
fn print(rt: &impl Print, digest: [u8; 32]) -> io::Result<()> {
    for byte in digest.iter() {
        print!(rt; "{byte:02x}")?;
    }
    println!(rt;)
}

fn print_named(rt: &impl Print, name: &[u8], number: usize, digest: [u8; 32]) -> io::Result<()> {
    rt.write_all(name)?;
    print!(rt; "{number} ")?;
    print(rt, digest)
}

// The message of the rule: byte i is 7 i + i / 256, modulo 256.
fn ruled() -> [u8; LENGTH] {
    let mut message = [0u8; LENGTH];
    for (i, byte) in message.iter_mut().enumerate() {
        *byte = ((i * 7 + i / 256) % 256) as u8;
    }
    message
}

fn prefix(rt: &impl Print, message: &[u8], n: usize) -> io::Result<()>
    requires { n ≤ length message.now }
{
    print_named(rt, b"prefix ", n, sha256::digest(&message[..n]))
}

// Every length past the borders of the padding of one and of two blocks, and some long ones.
fn prefixes(rt: &impl Print, message: &[u8]) -> io::Result<()>
    requires { length message.now ≡ 6400 }
{
    for n in 0..131 {
        prefix(rt, message, n)?;
    }
    prefix(rt, message, 163)?;
    prefix(rt, message, 1000)?;
    prefix(rt, message, 4095)?;
    prefix(rt, message, 4096)?;
    prefix(rt, message, 4097)?;
    prefix(rt, message, LENGTH)
}

// The digest of a message that is fed in pieces of size bytes: whatever the size, that of the whole.
fn in_pieces(message: &[u8], size: usize) -> [u8; 32]
    requires { (0 < size) × (length message.now ≤ 6400) }
    ensures { result ≡ SHA-256 message.now }
{
    let mut fed = running::start();
    for piece in message.chunks(size) {
        fed = running::update(fed, piece);
    }
    running::finish(fed)
}

// A thousand bytes, cut into pieces of every size from 1 to 130.
fn pieces(rt: &impl Print, message: &[u8]) -> io::Result<()>
    requires { length message.now ≡ 6400 }
{
    for size in 1..131 {
        print_named(rt, b"pieces of ", size, in_pieces(&message[..1000], size))?;
    }
    Ok(())
}

// The million times 'a', in a thousand pieces.
fn million() -> [u8; 32] {
    let piece = [97u8; 1000];
    let mut fed = running::start();
    for _i in 0..1000u32 {
        fed = running::update(fed, &piece);
    }
    running::finish(fed)
}

fn short(rt: &impl Print, message: &[u8]) -> io::Result<()> {
    print_named(rt, b"short ", message.len(), sha256::digest(message))
}

fn shorts(rt: &impl Print) -> io::Result<()> {
    short(rt, b"")?;
    short(rt, b"\xd3")?;
    short(rt, b"\x11\xaf")?;
    short(rt, b"\xb4\x19\x0e")?;
    short(rt, b"\x74\xba\x25\x21")?;
    short(rt, b"\xc2\x99\x20\x96\x82")?;
    short(rt, b"\xe1\xdc\x72\x4d\x56\x21")?;
    short(rt, b"\x06\xe0\x76\xf5\xa4\x42\xd5")?;
    short(rt, b"\x57\x38\xc9\x29\xc4\xf4\xcc\xb6")?;
    short(rt, b"\x33\x34\xc5\x80\x75\xd3\xf4\x13\x9e")?;
    short(rt, b"\x74\xcb\x93\x81\xd8\x9f\x5a\xa7\x33\x68")?;
    short(rt, b"\x76\xed\x24\xa0\xf4\x0a\x41\x22\x1e\xbf\xcf")?;
    short(rt, b"\x9b\xaf\x69\xcb\xa3\x17\xf4\x22\xfe\x26\xa9\xa0")?;
    short(rt, b"\x68\x51\x1c\xdb\x2d\xbb\xf3\x53\x0d\x7f\xb6\x1c\xbc")
}

// The last two digests, and the new one.
fn shifted(three: [u8; 96], digest: [u8; 32]) -> [u8; 96]
    ensures { length result ≡ 96 }
{
    let mut next = three;
    // By place: `rotate_left` by 32 clears some 4 KiB at each call, of which the chains make 100,000.
    for i in 0..32 {
        next[i] = three[i + 32];
        next[i + 32] = three[i + 64];
        next[i + 64] = digest[i];
    }
    next
}

// A thousand digests, each of the last three.
fn chain(seed: [u8; 32]) -> [u8; 32] {
    let mut three = shifted(shifted(shifted([0u8; 96], seed), seed), seed);
    let mut last = seed;
    for _i in 0..1000 {
        let digest = sha256::digest(&three);
        let next = shifted(three, digest);
        three = next;
        last = digest;
    }
    last
}

fn chains(rt: &impl Print) -> io::Result<()> {
    let mut seed =
        *b"\xf4\x1e\xce\x26\x13\xe4\x57\x39\x15\x69\x6b\x5a\xdc\xd5\x1c\xa3\x28\xbe\x3b\xf5\x66\xa9\xca\x99\xc9\xce\xb0\x27\x9c\x1c\xb0\xa7";
    for i in 0..100 {
        let next = chain(seed);
        seed = next;
        print_named(rt, b"chain ", i, seed)?;
    }
    Ok(())
}

fn main(rt: HostRuntime) -> io::Result<()> {
    shorts(&rt)?;
    let message = ruled();
    prefixes(&rt, &message)?;
    pieces(&rt, &message)?;
    print!(rt; "million ")?;
    print(&rt, million())?;
    chains(&rt)
}
