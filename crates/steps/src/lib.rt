// What the public calls are made of: their answers, a session's value, what is judged, and the stores of begin and write.
#![tactic(auto)]

use layout::Refusal;

pub mod answers;
pub mod beginning;
pub mod entering;
pub mod judging;
pub mod reverting;
pub mod staleness;
pub mod viewing;
pub mod writing;

// How a call that changes an image ends. A refused call has changed nothing. One that would hold a digest of all zeros is dropped, which is 17: a write
// ends its session then, and the making of a blank image leaves zeros. Three cases and no `Result`: 17 has stored, and what is refused has not.
#[derive(Clone, Copy)]
pub enum Ending {
    Accepted,
    Refused(Refusal),
    Dropped,
}

// A session. Begun, it remembers the 256 header bytes in `header`. Idle, it remembers those before and after the last commit in it, in `header` and
// `later`; where there is nothing to remember both are zero, and no image that opens has such a header. A flag beside headers and no enum: the C
// interface lends a session as bytes, and any bytes are one.
#[derive(Clone, Copy)]
pub struct Session {
    pub begun: bool,
    pub header: [u8; 256],
    pub later: [u8; 256],
}

// What a call on a session answers, and the session after it.
#[derive(Clone, Copy)]
pub struct Step {
    pub outcome: Ending,
    pub session: Session,
}
