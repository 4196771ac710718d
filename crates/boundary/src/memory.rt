// A session as its caller keeps it: 513 bytes, the first 0 for idle and anything else for begun, then the two remembered headers.
ghost use Rattle.std.specs.Prelude.{◌≡◌, ◌≤◌, take, drop};
ghost use Rattle.boundary.specs.Boundary.{session_of, session_bytes, session_left, write_left};

use number::runs::copy_into;
use steps::{Ending, Session, Step};

// 256 of the bytes.
fn part(bytes: [u8; 513], from: usize) -> [u8; 256]
    requires { from ≤ 257 }
    ensures { result ≡ take 256 (drop from bytes) }
{
    let mut header = [0u8; 256];
    let end = from + 256;
    copy_into(&mut header, 0, &bytes[from..end]);
    header
}

// The session that the bytes are.
pub fn session_of(bytes: [u8; 513]) -> Session
    ensures { result ≡ session_of bytes }
{
    let header = part(bytes, 1);
    let later = part(bytes, 257);
    Session {
        begun: bytes[0] != 0,
        header,
        later,
    }
}

fn join(begun: bool, header: [u8; 256], later: [u8; 256]) -> [u8; 513]
    ensures { result ≡ session_bytes (record { begun = begun; header = header; later = later }) }
{
    let mut bytes = [0u8; 513];
    bytes[0] = begun as u8;
    copy_into(&mut bytes, 1, &header);
    copy_into(&mut bytes, 257, &later);
    bytes
}

fn session_bytes(session: Session) -> [u8; 513]
    ensures { result ≡ session_bytes session }
{
    let header = session.header;
    let later = session.later;
    join(session.begun, header, later)
}

// The bytes after a call: of a refused one those before, else the session after it.
pub fn session_left(step: Step, before: [u8; 513]) -> [u8; 513]
    ensures { result ≡ session_left step.outcome before step.session }
{
    let outcome = step.outcome;
    match outcome {
        Ending::Accepted => {
            let session = step.session;
            session_bytes(session)
        }
        Ending::Refused(_) => before,
        Ending::Dropped => {
            let session = step.session;
            session_bytes(session)
        }
    }
}

// The bytes after a write: those before, unless it is dropped.
pub fn write_left(step: Step, before: [u8; 513]) -> [u8; 513]
    ensures { result ≡ write_left step.outcome before step.session }
{
    let outcome = step.outcome;
    match outcome {
        Ending::Accepted => before,
        Ending::Refused(_) => before,
        Ending::Dropped => {
            let session = step.session;
            session_bytes(session)
        }
    }
}
