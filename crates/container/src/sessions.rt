// The calls on a session. Whatever session value is handed in, only commit and revert change a byte that the committed view rests on, and a write
// where level 4 is external, which is written in place.
ghost use Rattle.std.specs.Prelude.{◌≡◌};
ghost use Rattle.layout.specs.Refusals.{Answers};
ghost use Rattle.steps.specs.Answers.{ending_says};
ghost use Rattle.steps.specs.Sessions.{idle};
ghost use Rattle.steps.specs.Calls as calls;
ghost use Rattle.steps.specs.Calls.{Stepped};

use commits::{store_header, store_signed, switch_signed, switch_tables};
use layout::Refusal;
use layout::headers::header_of;
use layout::opening::open;
use signing::Signer;
use signing::answers::{judge_header, judge_signer};
use steps::answers::{has_partition, refusal_of};
use steps::beginning::stage_image;
use steps::entering::{enter, enter_back};
use steps::writing::{idle_session, refused, write_partition};
use steps::{Ending, Session, Step};
use views::places::space_of;

// A session that remembers nothing.
pub fn new() -> Session
    ensures { result ≡ idle }
{
    idle_session()
}

// Starts a session: stages the inactive table and the other halves of level 1, and remembers the header.
pub fn begin(image: &mut [u8], session: Session) -> Step
    ensures { Stepped result image.new (calls.begin image.old session) }
{
    let answer = open(image);
    let Ok(c) = answer else {
        return refused(session, refusal_of(answer));
    };
    if session.begun {
        return refused(session, Refusal::SessionState);
    }
    let header = header_of(image);
    stage_image(space_of(c), c, image);
    Step {
        outcome: Ending::Accepted,
        session: Session {
            begun: true,
            header,
            later: [0u8; 256],
        },
    }
}

// Writes bytes to a partition's staged level 4 from a place on; an external one is written in place. A write that would hold a digest of all zeros ends
// the session with 17.
pub fn write(image: &mut [u8], session: Session, partition: u64, place: u64, bytes: &[u8]) -> Step
    ensures { Stepped result image.new (calls.write image.old session partition place bytes.now) }
{
    let answer = enter(image, session);
    let Ok(c) = answer else {
        return refused(session, refusal_of(answer));
    };
    if !has_partition(c, partition) {
        return refused(session, Refusal::NoPartition);
    }
    write_partition(image, session, c, partition, place, bytes)
}

// Makes what is staged the committed one, by one store of the header, and remembers the headers before and after.
pub fn commit(image: &mut [u8], session: Session) -> Step
    ensures { Stepped result image.new (calls.commit image.old session) }
{
    let answer = enter(image, session);
    let Ok(c) = answer else {
        return refused(session, refusal_of(answer));
    };
    let header = header_of(image);
    switch_tables(image, c);
    let later = header_of(image);
    Step {
        outcome: Ending::Accepted,
        session: Session {
            begun: false,
            header,
            later,
        },
    }
}

// The same with a signature: that of the new header, under a key, is stored with it.
pub fn commit_signed(image: &mut [u8], session: Session, key: [u8; 16], signer: Signer) -> Step
    ensures { Stepped result image.new (calls.commit_signed image.old session key signer) }
{
    let answer = enter(image, session);
    let Ok(c) = answer else {
        return refused(session, refusal_of(answer));
    };
    match judge_signer(image, signer) {
        Err(refusal) => refused(session, refusal),
        Ok(()) => {
            let header = header_of(image);
            switch_signed(image, c, key, signer);
            let later = header_of(image);
            Step {
                outcome: Ending::Accepted,
                session: Session {
                    begun: false,
                    header,
                    later,
                },
            }
        }
    }
}

// One step back: restores the header before the last commit in this session, by one store.
pub fn revert(image: &mut [u8], session: Session) -> Step
    ensures { Stepped result image.new (calls.revert image.old session) }
{
    let answer = enter_back(image, session);
    let Ok(_c) = answer else {
        return refused(session, refusal_of(answer));
    };
    let former = session.header;
    store_header(image, former);
    Step {
        outcome: Ending::Accepted,
        session: new(),
    }
}

// The same with a signature: that of the restored header, under a key, is stored with it. The signer's kind is held to that header's.
pub fn revert_signed(image: &mut [u8], session: Session, key: [u8; 16], signer: Signer) -> Step
    ensures { Stepped result image.new (calls.revert_signed image.old session key signer) }
{
    let answer = enter_back(image, session);
    let Ok(_c) = answer else {
        return refused(session, refusal_of(answer));
    };
    let restored = session.header;
    match judge_header(restored, signer) {
        Err(refusal) => refused(session, refusal),
        Ok(()) => {
            store_signed(image, restored, key, signer);
            Step {
                outcome: Ending::Accepted,
                session: new(),
            }
        }
    }
}

// Ends a session without a look at the image: what it staged is forgotten.
pub fn abandon(session: Session) -> Step
    ensures { (Answers ending_says result.outcome (calls.abandon session).outcome) × (result.session ≡ (calls.abandon session).session) }
{
    if !session.begun {
        return refused(session, Refusal::SessionState);
    }
    Step {
        outcome: Ending::Accepted,
        session: new(),
    }
}
