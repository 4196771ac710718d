// What a call answers, as one number: the low 8 bits are the refusal's number, 0 if the call is accepted; the bits above are the value.
ghost use Rattle.std.specs.Prelude.{◌≡◌, ℕ, cond, unwrap_or};
ghost use Rattle.layout.specs.Refusals.{refuses, says};
ghost use Rattle.steps.specs.Answers.{ending_says};
ghost use Rattle.boundary.specs.Boundary.{packed};

use layout::refusals::{carried_by, number_of};
use layout::{Container, Refusal};
use sha256::running::Running;
use steps::Ending;

// What an accepted answer hands out: the number that it counts as.
pub trait Counted {
    ghost number: { Self → ℕ };

    fn counted(self) -> u64
        ensures { result ≡ number self };
}

// A yes; and what is handed out apart: a container's description, a running digest, a digest.
impl Counted for () {
    ghost number = { λ _. 0 };

    fn counted(self) -> u64 {
        0
    }
}

impl Counted for Container {
    ghost number = { λ _. 0 };

    fn counted(self) -> u64 {
        0
    }
}

impl Counted for Running {
    ghost number = { λ _. 0 };

    fn counted(self) -> u64 {
        0
    }
}

impl Counted for [u8; 32] {
    ghost number = { λ _. 0 };

    fn counted(self) -> u64 {
        0
    }
}

// 1 for yes, 0 for no.
impl Counted for bool {
    ghost number = { λ b. cond b 1 0 };

    fn counted(self) -> u64 {
        self as u64
    }
}

// How many there are, or how long.
impl Counted for u64 {
    ghost number = { λ n. n };

    fn counted(self) -> u64 {
        self
    }
}

// A file's entry number, 0 for none.
impl Counted for Option<u64> {
    ghost number = { λ f. unwrap_or f 0 };

    fn counted(self) -> u64 {
        self.unwrap_or(0)
    }
}

fn pack(number: u64, value: u64) -> u64
    ensures { result ≡ packed (record { number = number; value = value }) }
{
    number % 0x100 + 0x100 * (value % 0x100_0000_0000_0000)
}

fn refused_answer(refusal: Refusal) -> u64
    ensures { result ≡ packed (refuses refusal) }
{
    pack(number_of(refusal), carried_by(refusal))
}

pub fn answer_of<T: Counted>(answer: Result<T, Refusal>) -> u64
    ensures { result ≡ packed (says T.number answer) }
{
    match answer {
        Ok(value) => pack(0, value.counted()),
        Err(refusal) => refused_answer(refusal),
    }
}

// A dropped call is refusal 17.
pub fn ending_answer(ending: Ending) -> u64
    ensures { result ≡ packed (ending_says ending) }
{
    match ending {
        Ending::Accepted => pack(0, 0),
        Ending::Refused(refusal) => refused_answer(refusal),
        Ending::Dropped => pack(17, 0),
    }
}
