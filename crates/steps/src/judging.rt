// What a write answers before it stores: 9, 10. Of the hash blocks above it only those above a block at its end that is covered in part are
// hashed, each once, and of level 4 at most the two blocks at its ends.
ghost use Rattle.std.specs.Prelude.{◌≡◌, cond};
ghost use Rattle.steps.specs.Sessions.{ends_outcome, write_outcome};
ghost use Rattle.steps.specs.Rules.{EndRules};

use ivfc::Reader;
use layout::Refusal;
use number::blocks::block_of;
use number::ranges::lies_inside;
use update::clearing::covers;

// One of two numbers.
fn choose(first: bool, a: u64, b: u64) -> u64
    ensures { result ≡ cond first a b }
{
    if first { a } else { b }
}

// 10: only the first and the last touched block can be covered in part. Where one of them is covered in full, the other is asked alone.
fn judge_ends(reader: Reader<'_>, place: u64, n: u64, first: u64, last: u64) -> Result<(), Refusal>
    requires { EndRules reader.view place n first last }
    ensures { result ≡ ends_outcome reader.entry.view reader.entry.image.now place n }
{
    let front = covers(reader.view.level4, place, n, first);
    let back = covers(reader.view.level4, place, n, last);
    if front & back {
        return Ok(());
    }
    let a = choose(front, last, first);
    let b = choose(back, first, last);
    let two = reader.judge_two(4, a, b);
    if !two.first {
        return Err(Refusal::Unverified(a));
    }
    if !two.second {
        return Err(Refusal::Unverified(b));
    }
    Ok(())
}

// 9, 10. A write of length 0 touches no block.
pub fn judge_write(reader: Reader<'_>, place: u64, n: u64) -> Result<(), Refusal>
    ensures { result ≡ write_outcome reader.entry.view reader.entry.image.now place n }
{
    if !lies_inside(place, n, reader.view.level4.size) {
        return Err(Refusal::OutOfRange);
    }
    if n == 0 {
        return Ok(());
    }
    let first = block_of(reader.view.level4, place);
    let last = block_of(reader.view.level4, place + (n - 1));
    judge_ends(reader, place, n, first, last)
}
