// Describes the image on standard input: its kind, its partitions, its active table, and of each partition the size of level 4, its blocks and
// how many of them are verified ("stands" in the paper's words, which the output keeps). At most 65,536 bytes are taken.
#![tactic(auto)]

use container::reading::{count_verified, open};
use layout::refusals::number_of;
use layout::{Container, Partition, Refusal};
use number::blocks::block_count;
use std::io;
use std::io::Read;

const LONGEST_INPUT: usize = 65_536;

fn print_refusal(rt: &impl Print, r: Refusal) -> io::Result<()> {
    println!(rt; "refused {}", number_of(r))
}

fn print_count(rt: &impl Print, count: Result<u64, Refusal>) -> io::Result<()> {
    match count {
        Ok(n) => print!(rt; "{n}"),
        Err(r) => print_refusal(rt, r),
    }
}

// One partition's line.
fn print_partition(
    rt: &impl Print,
    image: &[u8],
    name: &str,
    q: u64,
    p: Partition,
) -> io::Result<()> {
    let level = p.ivfc.level4;
    print!(rt;
        "{name} level4 {} blocks {} stands ",
        level.size,
        block_count(level)
    )?;
    print_count(rt, count_verified(image, q))?;
    println!(rt;)
}

fn print_container(rt: &impl Print, image: &[u8], c: Container) -> io::Result<()> {
    let h = c.header;
    let table = if h.flag == 0 { "primary" } else { "secondary" };
    println!(rt; "{}", h.kind)?;
    println!(rt; "partitions {}", h.count)?;
    println!(rt; "table {table}")?;
    print_partition(rt, image, "A", 0, c.a)?;
    match c.b {
        None => Ok(()),
        Some(b) => print_partition(rt, image, "B", 1, b),
    }
}

fn describe(rt: &impl Print, image: &[u8]) -> io::Result<()> {
    match open(image) {
        Ok(c) => print_container(rt, image, c),
        Err(r) => print_refusal(rt, r),
    }
}

// Takes the input until the buffer is full or the input ends, and says how many bytes there were.
// (Another program has the like: a crate for this one function would be no plainer.)
fn take_input(input: &mut impl Read, buffer: &mut [u8]) -> io::Result<usize> {
    let mut n = 0;
    // A `while`: each turn goes on by as many bytes as the read gave.
    while n < buffer.len() {
        let more = input.read(&mut buffer[n..])?;
        if more == 0 {
            break;
        }
        n += more;
    }
    Ok(n)
}

fn main(rt: HostRuntime) -> io::Result<()> {
    let mut buffer = [0u8; LONGEST_INPUT + 1];
    let Ok(n) = take_input(&mut rt.reader(), &mut buffer) else {
        return println!(rt; "cannot read");
    };
    if LONGEST_INPUT < n {
        return println!(rt; "too long");
    }
    describe(&rt, &buffer[..n])
}
