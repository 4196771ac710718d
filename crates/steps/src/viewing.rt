// Reading a view, and the question whether a block of it is verified.
ghost use Rattle.std.specs.Prelude.{◌≡◌};
ghost use Rattle.steps.specs.Reading.{read_outcome, read_from, verdict_on};

use ivfc::Reader;
use layout::Refusal;
use number::blocks::{block_count, block_of};
use number::ranges::lies_inside;

// What a read of n bytes answers: 9, then 10 with the lowest touched block that is not verified. One of length 0 touches no block.
pub fn judge_read(reader: Reader<'_>, place: u64, n: u64) -> Result<(), Refusal>
    ensures { result ≡ read_outcome reader.entry.view reader.entry.image.now place n }
{
    if !lies_inside(place, n, reader.view.level4.size) {
        return Err(Refusal::OutOfRange);
    }
    if n == 0 {
        return Ok(());
    }
    let first = block_of(reader.view.level4, place);
    let last = block_of(reader.view.level4, place + (n - 1));
    let lowest = reader.first_unverified(4, first, last);
    if lowest <= last {
        return Err(Refusal::Unverified(lowest));
    }
    Ok(())
}

// Fills the whole buffer with a view's level 4 from a place on, or leaves it alone.
pub fn read_view(reader: Reader<'_>, place: u64, buffer: &mut [u8]) -> Result<(), Refusal>
    ensures { (result ≡ (read_from reader.entry.view reader.entry.image.now place buffer.old).outcome) × (buffer.new ≡ (read_from reader.entry.view reader.entry.image.now place buffer.old).buffer) }
{
    judge_read(reader, place, buffer.len() as u64)?;
    reader.gather(4, place, buffer);
    Ok(())
}

// Whether a block of a view's level 4 is verified; 9 for a block number past the last.
pub fn judge_block(reader: Reader<'_>, block: u64) -> Result<bool, Refusal>
    ensures { result ≡ verdict_on reader.entry.view reader.entry.image.now block }
{
    if block_count(reader.view.level4) <= block {
        return Err(Refusal::OutOfRange);
    }
    Ok(reader.block_verified(4, block))
}
