// Opens each image of standard input and prints a line for it: the refusal's number, or 0 with the kind, the count and the flag. Before
// each image come the four bytes of its length; a length that the input does not have, such as the last, ends it.
#![tactic(auto)]

ghost use Rattle.std.specs.Prelude.{◌≤◌, length};

use layout::opening::open;
use layout::refusals::number_of;
use std::io;
use std::io::Read;

fn answer(rt: &impl Print, image: &[u8]) -> io::Result<()> {
    match open(image) {
        Ok(c) => {
            let h = c.header;
            println!(rt; "0 {} {} {}", h.kind, h.count, h.flag)
        }
        Err(r) => println!(rt; "{}", number_of(r)),
    }
}

fn answer_all(rt: &impl Print, input: &[u8]) -> io::Result<()> {
    let mut rest = input;
    // A `while`: each turn goes on by as many bytes as the image has that stands there.
    while let Some((size, after)) = rest.split_first_chunk::<4>() {
        let size = u32::from_le_bytes(*size) as usize;
        let Some((image, next)) = after.split_at_checked(size) else {
            break;
        };
        answer(rt, image)?;
        rest = next;
    }
    Ok(())
}

// Takes bytes until the buffer is full, the input ends or a read fails, and says how many.
// (Another program has the like: a crate for this one function would be no plainer.)
fn take_input(input: &mut impl Read, buffer: &mut [u8]) -> usize
    ensures { result ≤ length buffer.new }
{
    let mut n = 0;
    // A `while`: each turn goes on by as many bytes as the read gave.
    while n < buffer.len() {
        let Ok(more) = input.read(&mut buffer[n..]) else {
            break;
        };
        if more == 0 {
            break;
        }
        n += more;
    }
    n
}

fn main(rt: HostRuntime) -> io::Result<()> {
    let mut buffer = [0u8; 0x4_0000];
    let n = take_input(&mut rt.reader(), &mut buffer);
    answer_all(&rt, &buffer[..n])
}
