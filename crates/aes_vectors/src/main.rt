// Prints encryptions and codes, one to a line. What it must print is in ../stdout, which tests/make_aes_vectors.py makes with other implementations;
// the comments there say where each input is from.
#![tactic(auto)]

use aes::cipher::encrypt;
use aes::state::xor;
use cmac::subkeys;
use std::{array, io};

const ZERO: [u8; 16] = [0; 16];

// The key of FIPS 197, appendix B, and of RFC 4493.
const KEY: [u8; 16] = *b"\x2b\x7e\x15\x16\x28\xae\xd2\xa6\xab\xf7\x15\x88\x09\xcf\x4f\x3c";

// Bytes have no `Display`, and a type for them would be made for this line alone.
fn print(rt: &impl Print, bytes: [u8; 16]) -> io::Result<()> {
    for byte in bytes {
        print!(rt; "{byte:02x}")?;
    }
    Ok(())
}

fn print_named(rt: &impl Print, name: &[u8], bytes: [u8; 16]) -> io::Result<()> {
    rt.write_all(name)?;
    print(rt, bytes)?;
    println!(rt;)
}

fn print_numbered(rt: &impl Print, name: &[u8], number: usize, bytes: [u8; 16]) -> io::Result<()> {
    rt.write_all(name)?;
    print!(rt; "{number}")?;
    print_named(rt, b" ", bytes)
}

fn print_answer(rt: &impl Print, name: &[u8], input: [u8; 16], bytes: [u8; 16]) -> io::Result<()> {
    rt.write_all(name)?;
    print(rt, input)?;
    print_named(rt, b" ", bytes)
}

// The examples of FIPS 197.
fn examples(rt: &impl Print) -> io::Result<()> {
    print_named(
        rt,
        b"appendix B ",
        encrypt(
            KEY,
            *b"\x32\x43\xf6\xa8\x88\x5a\x30\x8d\x31\x31\x98\xa2\xe0\x37\x07\x34",
        ),
    )?;
    print_named(
        rt,
        b"appendix C.1 ",
        encrypt(
            *b"\x00\x01\x02\x03\x04\x05\x06\x07\x08\x09\x0a\x0b\x0c\x0d\x0e\x0f",
            *b"\x00\x11\x22\x33\x44\x55\x66\x77\x88\x99\xaa\xbb\xcc\xdd\xee\xff",
        ),
    )
}

// NIST's known answers: blocks under the zero key.
fn gfsbox(rt: &impl Print, block: [u8; 16]) -> io::Result<()> {
    print_answer(rt, b"GFSbox ", block, encrypt(ZERO, block))
}

fn gfsboxes(rt: &impl Print) -> io::Result<()> {
    for block in [
        *b"\xf3\x44\x81\xec\x3c\xc6\x27\xba\xcd\x5d\xc3\xfb\x08\xf2\x73\xe6",
        *b"\x97\x98\xc4\x64\x0b\xad\x75\xc7\xc3\x22\x7d\xb9\x10\x17\x4e\x72",
        *b"\x96\xab\x5c\x2f\xf6\x12\xd9\xdf\xaa\xe8\xc3\x1f\x30\xc4\x21\x68",
        *b"\x6a\x11\x8a\x87\x45\x19\xe6\x4e\x99\x63\x79\x8a\x50\x3f\x1d\x35",
        *b"\xcb\x9f\xce\xec\x81\x28\x6c\xa3\xe9\x89\xbd\x97\x9b\x0c\xb2\x84",
        *b"\xb2\x6a\xeb\x18\x74\xe4\x7c\xa8\x35\x8f\xf2\x23\x78\xf0\x91\x44",
        *b"\x58\xc8\xe0\x0b\x26\x31\x68\x6d\x54\xea\xb8\x4b\x91\xf0\xac\xa1",
    ] {
        gfsbox(rt, block)?;
    }
    Ok(())
}

// The zero block under keys.
fn keysbox(rt: &impl Print, key: [u8; 16]) -> io::Result<()> {
    print_answer(rt, b"KeySbox ", key, encrypt(key, ZERO))
}

fn keysboxes(rt: &impl Print) -> io::Result<()> {
    for key in [
        *b"\x10\xa5\x88\x69\xd7\x4b\xe5\xa3\x74\xcf\x86\x7c\xfb\x47\x38\x59",
        *b"\xca\xea\x65\xcd\xbb\x75\xe9\x16\x9e\xcd\x22\xeb\xe6\xe5\x46\x75",
        *b"\xa2\xe2\xfa\x9b\xaf\x7d\x20\x82\x2c\xa9\xf0\x54\x2f\x76\x4a\x41",
        *b"\xb6\x36\x4a\xc4\xe1\xde\x1e\x28\x5e\xaf\x14\x4a\x24\x15\xf7\xa0",
        *b"\x64\xcf\x9c\x7a\xbc\x50\xb8\x88\xaf\x65\xf4\x9d\x52\x19\x44\xb2",
        *b"\x47\xd6\x74\x2e\xef\xcc\x04\x65\xdc\x96\x35\x5e\x85\x1b\x64\xd9",
        *b"\x3e\xb3\x97\x90\x67\x8c\x56\xbe\xe3\x4b\xbc\xde\xcc\xf6\xcd\xb5",
        *b"\x64\x11\x0a\x92\x4f\x07\x43\xd5\x00\xcc\xad\xae\x72\xc1\x34\x27",
        *b"\x18\xd8\x12\x65\x16\xf8\xa1\x2a\xb1\xa3\x6d\x9f\x04\xd6\x8e\x51",
        *b"\xf5\x30\x35\x79\x68\x57\x84\x80\xb3\x98\xa3\xc2\x51\xcd\x10\x93",
        *b"\xda\x84\x36\x7f\x32\x5d\x42\xd6\x01\xb4\x32\x69\x64\x80\x2e\x8e",
        *b"\xe3\x7b\x1c\x6a\xa2\x84\x6f\x6f\xdb\x41\x3f\x23\x8b\x08\x9f\x23",
        *b"\x6c\x00\x2b\x68\x24\x83\xe0\xca\xbc\xc7\x31\xc2\x53\xbe\x56\x74",
        *b"\x14\x3a\xe8\xed\x65\x55\xab\xa9\x61\x10\xab\x58\x89\x3a\x8a\xe1",
        *b"\xb6\x94\x18\xa8\x53\x32\x24\x0d\xc8\x24\x92\x35\x39\x56\xae\x0c",
        *b"\x71\xb5\xc0\x8a\x19\x93\xe1\x36\x2e\x4d\x0c\xe9\xb2\x2b\x78\xd5",
        *b"\xe2\x34\xcd\xca\x26\x06\xb8\x1f\x29\x40\x8d\x5f\x6d\xa2\x12\x06",
        *b"\x13\x23\x7c\x49\x07\x4a\x3d\xa0\x78\xdc\x1d\x82\x8b\xb7\x8c\x6f",
        *b"\x30\x71\xa2\xa4\x8f\xe6\xcb\xd0\x4f\x1a\x12\x90\x98\xe3\x08\xf8",
        *b"\x90\xf4\x2e\xc0\xf6\x83\x85\xf2\xff\xc5\xdf\xc0\x3a\x65\x4d\xce",
        *b"\xfe\xbd\x9a\x24\xd8\xb6\x5c\x1c\x78\x7d\x50\xa4\xed\x36\x19\xa9",
    ] {
        keysbox(rt, key)?;
    }
    Ok(())
}

// A byte with one more of its first bits set.
fn one_more(byte: u8) -> u8 {
    byte / 2 + 128
}

// Blocks and keys with the first bits set: one bit more each time.
fn variables(rt: &impl Print) -> io::Result<()> {
    let mut ones = ZERO;
    for i in 0..128 {
        ones[i / 8] = one_more(ones[i / 8]);
        print_numbered(rt, b"VarTxt ", i, encrypt(ZERO, ones))?;
        print_numbered(rt, b"VarKey ", i, encrypt(ones, ZERO))?;
    }
    Ok(())
}

// The Monte Carlo test: a hundred times a thousand encryptions, each of the last one, and then the key changes.
fn thousand(key: [u8; 16], block: [u8; 16]) -> [u8; 16] {
    let mut last = block;
    for _i in 0..1000 {
        let next = encrypt(key, last);
        last = next;
    }
    last
}

fn chains(rt: &impl Print) -> io::Result<()> {
    let mut key = *b"\x13\x9a\x35\x42\x2f\x1d\x61\xde\x3c\x91\x78\x7f\xe0\x50\x7a\xfd";
    let mut block = *b"\xb9\x14\x5a\x76\x8b\x7d\xc4\x89\xa0\x96\xb5\x46\xf4\x3b\x23\x1f";
    for i in 0..100 {
        let last = thousand(key, block);
        print_numbered(rt, b"chain ", i, last)?;
        let next = xor(key, last);
        key = next;
        block = last;
    }
    Ok(())
}

// The subkeys that RFC 4493 prints.
fn subkey_examples(rt: &impl Print) -> io::Result<()> {
    print_named(rt, b"L ", encrypt(KEY, ZERO))?;
    let k1 = subkeys::first(KEY);
    print_named(rt, b"K1 ", k1)?;
    print_named(rt, b"K2 ", subkeys::doubled(k1))
}

fn code(rt: &impl Print, name: &[u8], message: &[u8]) -> io::Result<()> {
    print_numbered(rt, name, message.len(), cmac::code(KEY, message))
}

// The examples of RFC 4493.
fn code_examples(rt: &impl Print) -> io::Result<()> {
    let message =
        *b"\x6b\xc1\xbe\xe2\x2e\x40\x9f\x96\xe9\x3d\x7e\x11\x73\x93\x17\x2a\xae\x2d\x8a\x57\x1e\x03\xac\x9c\x9e\xb7\x6f\xac\x45\xaf\x8e\x51\x30\xc8\x1c\x46\xa3\x5c\xe4\x11\xe5\xfb\xc1\x19\x1a\x0a\x52\xef\xf6\x9f\x24\x45\xdf\x4f\x9b\x17\xad\x2b\x41\x7b\xe6\x6c\x37\x10";
    code(rt, b"example ", b"")?;
    code(rt, b"example ", &message[..16])?;
    code(rt, b"example ", &message[..40])?;
    code(rt, b"example ", &message)
}

// The message of the rule: byte i is 7 i + 3, modulo 256.
fn ruled() -> [u8; 80] {
    array::from_fn(|i| ((i * 7 + 3) % 256) as u8)
}

// Every length up to five blocks.
fn prefixes(rt: &impl Print, message: &[u8]) -> io::Result<()> {
    for n in 0..=message.len() {
        code(rt, b"prefix ", &message[..n])?;
    }
    Ok(())
}

fn main(rt: HostRuntime) -> io::Result<()> {
    examples(&rt)?;
    gfsboxes(&rt)?;
    keysboxes(&rt)?;
    variables(&rt)?;
    chains(&rt)?;
    subkey_examples(&rt)?;
    code_examples(&rt)?;
    let message = ruled();
    prefixes(&rt, &message)
}
