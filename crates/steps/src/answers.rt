// What the calls have in common: opening's refusals, and whether a partition is there.
ghost use Rattle.std.specs.Prelude.{◌≡◌, ltb};
ghost use Rattle.views.specs.Places.{partitions};
ghost use Rattle.steps.specs.Rules.{refusal_of};

use layout::{Container, Refusal};

// Why opening refuses an image.
pub fn refusal_of(answer: Result<Container, Refusal>) -> Refusal
    ensures { result ≡ refusal_of answer }
{
    match answer {
        Ok(_) => Refusal::Length,
        Err(refusal) => refusal,
    }
}

// There is such a partition.
pub fn has_partition(c: Container, q: u64) -> bool
    ensures { result ≡ ltb q (partitions c) }
{
    q < c.header.count as u64
}
