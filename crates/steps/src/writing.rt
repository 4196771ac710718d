// Writing to a partition that is there, and how a call on a session ends.
ghost use Rattle.std.specs.Prelude.{◌≡◌, cond, ◌<◌, Ok};
ghost use Rattle.layout.specs.Opening.{opened};
ghost use Rattle.views.specs.Places.{partitions};
ghost use Rattle.steps.specs.Sessions.{idle};
ghost use Rattle.steps.specs.Calls as calls;
ghost use Rattle.steps.specs.Calls.{Stepped};

use super::judging::judge_write;
use super::{Ending, Session, Step};
use ivfc::Reader;
use layout::{Container, Refusal};
use update::write_level4;
use views::places::{space_of, staged_view};

// A session that remembers nothing.
pub fn idle_session() -> Session
    ensures { result ≡ idle }
{
    Session {
        begun: false,
        header: [0u8; 256],
        later: [0u8; 256],
    }
}

// A refused call leaves its session as it was.
pub fn refused(session: Session, refusal: Refusal) -> Step
    ensures { (result.outcome ≡ Ending.Refused refusal) × (result.session ≡ session) }
{
    Step {
        outcome: Ending::Refused(refusal),
        session,
    }
}

// Ends a write that has stored: one that holds a digest of all zeros is dropped, which is 17, and its session goes idle.
fn finish(zero: bool, session: Session) -> Step
    ensures { (result.outcome ≡ cond zero Ending.Dropped Ending.Accepted) × (result.session ≡ cond zero idle session) }
{
    if zero {
        return Step {
            outcome: Ending::Dropped,
            session: idle_session(),
        };
    }
    Step {
        outcome: Ending::Accepted,
        session,
    }
}

// Writes bytes to a partition whose places are known: 9, 10, then the stores, then 17.
pub fn write_partition(
    image: &mut [u8],
    session: Session,
    c: Container,
    q: u64,
    place: u64,
    bytes: &[u8],
) -> Step
    requires { (opened image.old ≡ Ok c) × (q < partitions c) }
    ensures { Stepped result image.new (calls.write_to c image.old session q place bytes.now) }
{
    let view = staged_view(c, q);
    match judge_write(Reader { view, image }, place, bytes.len() as u64) {
        Err(refusal) => refused(session, refusal),
        Ok(()) => finish(
            write_level4(space_of(c), view, image, place, bytes),
            session,
        ),
    }
}
