// A running digest that its holder lends. Any value of the state is a value, also one that no call made: the contracts say what comes of it.
ghost use Rattle.std.specs.Prelude.{◌≡◌};
ghost use Rattle.sha256.specs.Running.{state_of, fresh};
ghost use Rattle.signing.specs.Digests.{AnyCutting, Feeds, FeedsInPlace, Finishes};

use layout::Refusal;
use sha256::running::{Running, fits, update};

// A digest that was fed nothing.
pub fn start() -> Running
    ensures { state_of result ≡ fresh }
{
    sha256::running::start()
}

// The digest with a piece more, or 22.
pub fn advance(running: Running, piece: &[u8]) -> Result<Running, Refusal>
    ensures { Feeds running piece.now result }
{
    if !fits(running.total, piece.len()) {
        return Err(Refusal::DigestTooLong);
    }
    let next = update(running, piece);
    Ok(next)
}

// The same in place: a refused piece leaves the digest as it was.
pub fn feed(digest: &mut Running, piece: &[u8]) -> Result<(), Refusal>
    ensures { FeedsInPlace digest.old piece.now result digest.new }
{
    let before = *digest;
    *digest = advance(before, piece)?;
    Ok(())
}

// The digest of what was fed, or 22. It takes a copy: what is lent may be fed further.
pub fn finish(running: Running) -> Result<[u8; 32], Refusal>
    ensures { Finishes running result }
{
    if !fits(running.total, 0) {
        return Err(Refusal::DigestTooLong);
    }
    let digest = sha256::running::finish(running);
    Ok(digest)
}

// From a fresh start any cutting gives the digest of the whole: the check asks for it by its statement.
pub fn any_cutting()
    ensures { AnyCutting }
{}
