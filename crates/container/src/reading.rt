// The calls that read. None of them changes the image; a refused read leaves its buffer as it was.
ghost use Rattle.std.specs.Prelude.{◌≡◌};
ghost use Rattle.layout.specs.Opening.{opened};
ghost use Rattle.layout.specs.Refusals.{Answers, outcome_says, count_says};
ghost use Rattle.signatures.specs.Signatures.{opened_signed};
ghost use Rattle.faults.specs.Faults as faulty;
ghost use Rattle.steps.specs.Answers.{verdict_says};
ghost use Rattle.steps.specs.Calls.{read_committed, read_staged, is_verified, count_verified};

use faults::Fault;
use faults::listing::list;
use ivfc::Reader;
use layout::{Container, Refusal};
use signing::Signer;
use steps::Session;
use steps::answers::{has_partition, refusal_of};
use steps::entering::enter;
use steps::viewing::{judge_block, read_view};
use views::places::{committed_view, staged_view};

// Every field of the image that opening reads, or the first refusal of 1 to 7 that applies.
pub fn open(image: &[u8]) -> Result<Container, Refusal>
    ensures { Answers outcome_says result (opened image.now) }
{
    layout::opening::open(image)
}

// The same of an image that is signed: 15 and 16 come after 3, before 4.
pub fn open_signed(image: &[u8], key: [u8; 16], signer: Signer) -> Result<Container, Refusal>
    ensures { Answers outcome_says result (opened_signed image.now key signer) }
{
    signatures::open_signed(image, key, signer)
}

// Fills the whole buffer with bytes of a partition's level 4 from a place on, as the active table has it.
pub fn read_committed(
    image: &[u8],
    partition: u64,
    place: u64,
    buffer: &mut [u8],
) -> Result<(), Refusal>
    ensures { (Answers outcome_says result (read_committed image.now partition place buffer.old).outcome) × (buffer.new ≡ (read_committed image.now partition place buffer.old).buffer) }
{
    let answer = open(image);
    let Ok(c) = answer else {
        return Err(refusal_of(answer));
    };
    if !has_partition(c, partition) {
        return Err(Refusal::NoPartition);
    }
    let view = committed_view(c, partition);
    read_view(Reader { view, image }, place, buffer)
}

// The same as a begun session has it.
pub fn read_staged(
    image: &[u8],
    session: Session,
    partition: u64,
    place: u64,
    buffer: &mut [u8],
) -> Result<(), Refusal>
    ensures { (Answers outcome_says result (read_staged image.now session partition place buffer.old).outcome) × (buffer.new ≡ (read_staged image.now session partition place buffer.old).buffer) }
{
    let answer = enter(image, session);
    let Ok(c) = answer else {
        return Err(refusal_of(answer));
    };
    if !has_partition(c, partition) {
        return Err(Refusal::NoPartition);
    }
    let view = staged_view(c, partition);
    read_view(Reader { view, image }, place, buffer)
}

// Whether a block of a partition's level 4 is verified, as the active table has it.
pub fn verified(image: &[u8], partition: u64, block: u64) -> Result<bool, Refusal>
    ensures { Answers verdict_says result (is_verified image.now partition block) }
{
    let answer = open(image);
    let Ok(c) = answer else {
        return Err(refusal_of(answer));
    };
    if !has_partition(c, partition) {
        return Err(Refusal::NoPartition);
    }
    let view = committed_view(c, partition);
    judge_block(Reader { view, image }, block)
}

// How many blocks of a partition's level 4 are verified, as the active table has it.
pub fn count_verified(image: &[u8], partition: u64) -> Result<u64, Refusal>
    ensures { Answers count_says result (count_verified image.now partition) }
{
    let answer = open(image);
    let Ok(c) = answer else {
        return Err(refusal_of(answer));
    };
    if !has_partition(c, partition) {
        return Err(Refusal::NoPartition);
    }
    let view = committed_view(c, partition);
    Ok(Reader { view, image }.count_verified())
}

// The fault list: every block of levels 1 to 4 of every partition that is not verified, as the active table has it. The row gets the first
// ones, as far as it goes; the answer is the number of all.
pub fn faults(image: &[u8], row: &mut [Fault]) -> Result<u64, Refusal>
    ensures { (Answers count_says result (faulty.count_faults image.now)) × (row.new ≡ faulty.row_after (faulty.faults image.now) row.old) }
{
    list(image, row)
}
