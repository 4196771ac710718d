// Which numbers are in a set: a lent bit for each.
ghost use Rattle.std.specs.Prelude.{◌≡◌, false, ◌+◌, ◌/◌, ◌%◌, ◌^◌, ◌<◌, length};
ghost use Rattle.number.specs.Fields.{test_bit};
ghost use Rattle.number.specs.Marks.{marked, Marks};

use super::fields::byte;

fn has_bit(b: u8, k: u64) -> bool
    requires { k < 64 }
    ensures { result ≡ test_bit b k }
{
    (b as u64 >> k) % 2 == 1
}

// The byte with one bit more, if it has it not.
fn with_bit(b: u8, k: u64) -> u8
    requires { k < 8 }
    ensures { result ≡ (b + 2 ^ k) % 0x100 }
{
    b.wrapping_add(1 << k)
}

pub fn is_marked(marks: &[u8], e: u64) -> bool
    ensures { result ≡ marked marks.now e }
{
    has_bit(byte(marks, (e / 8) as usize), e % 8)
}

pub fn set_mark(marks: &mut [u8], e: u64)
    requires { (e / 8 < length marks.old) × (marked marks.old e ≡ false) }
    ensures { Marks marks.old e marks.new }
{
    let at = (e / 8) as usize;
    marks[at] = with_bit(marks[at], e % 8);
}
