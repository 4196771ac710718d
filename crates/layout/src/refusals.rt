// The number of each refusal, and the block number that it carries.
ghost use Rattle.std.specs.Prelude.{◌≡◌};
ghost use Rattle.layout.specs.Refusals.{refuses};

use super::Refusal;

// By a name of its own, and no `From`: the C interface hands out two numbers of a refusal, and a conversion would not say which.
pub fn number_of(r: Refusal) -> u64
    ensures { result ≡ (refuses r).number }
{
    match r {
        Refusal::Length => 1,
        Refusal::Format => 2,
        Refusal::Selection => 3,
        Refusal::Geometry => 4,
        Refusal::TableHash => 5,
        Refusal::Descriptor => 6,
        Refusal::Placement => 7,
        Refusal::NoPartition => 8,
        Refusal::OutOfRange => 9,
        Refusal::Unverified(_) => 10,
        Refusal::SessionState => 13,
        Refusal::Stale => 14,
        Refusal::SignerKind => 15,
        Refusal::Signature => 16,
        Refusal::InvalidEntry => 18,
        Refusal::NoSave => 19,
        Refusal::BlankSize => 20,
        Refusal::NothingToRevert => 21,
        Refusal::DigestTooLong => 22,
    }
}

// The lowest block number of level 4 to which 10 applies, and 0 for the others.
pub fn carried_by(r: Refusal) -> u64
    ensures { result ≡ (refuses r).value }
{
    let Refusal::Unverified(block) = r else {
        return 0;
    };
    block
}
