// What the calls on a session check first: opening's refusals, and then the session's.
ghost use Rattle.std.specs.Prelude.{◌≡◌};
ghost use Rattle.steps.specs.Calls.{entered, entered_back};

use super::Session;
use super::reverting::is_revertible;
use super::staleness::is_current;
use layout::opening::open;
use layout::{Container, Refusal};

// For a call of a begun session: 13 and 14.
pub fn enter(image: &[u8], session: Session) -> Result<Container, Refusal>
    ensures { result ≡ entered image.now session }
{
    let c = open(image)?;
    if !session.begun {
        return Err(Refusal::SessionState);
    }
    if !is_current(image, c, session) {
        return Err(Refusal::Stale);
    }
    Ok(c)
}

// For a step back: 13 if begun, and 21.
pub fn enter_back(image: &[u8], session: Session) -> Result<Container, Refusal>
    ensures { result ≡ entered_back image.now session }
{
    let c = open(image)?;
    if session.begun {
        return Err(Refusal::SessionState);
    }
    let former = session.header;
    let later = session.later;
    if !is_revertible(image, former, later) {
        return Err(Refusal::NothingToRevert);
    }
    Ok(c)
}
