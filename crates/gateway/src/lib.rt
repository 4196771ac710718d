// The calls for programs in C and other languages, as include/teplovist.h describes them: numbers and bytes go in and out. None asks
// anything of its caller but pointers that are good.
#![tactic(auto)]

ghost use Rattle.std.specs.Prelude.{◌≡◌};
ghost use Rattle.layout.specs.Refusals.{outcome_says, count_says};
ghost use Rattle.steps.specs.Answers.{verdict_says, ending_says};
ghost use Rattle.save.specs.Answers.{sought_says};
ghost use Rattle.faults.specs.Faults.{count_faults, faults, row_after};
ghost use Rattle.layout.specs.Opening.{opened};
ghost use Rattle.sha256.specs.Running.{state_of, fresh};
ghost use Rattle.signing.specs.Calls.{signed, outcome_of, built_as, block_left, digest_left};
ghost use Rattle.signatures.specs.Signatures.{opened_signed};
ghost use Rattle.steps.specs.Calls as calls;
ghost use Rattle.boundary.specs.Boundary.{packed, description_left, session_of, session_left, write_left, Called, kind_of};
ghost use Rattle.save.specs.Calls.{list_names, find_file};
ghost use Rattle.blank.specs.Making.{blank_length, made};
ghost use Rattle.boundary.specs.Digests.{running_of, FedBytes, FinishedBytes};
ghost use Rattle.boundary.specs.Signers.{signer_of};

use blank::making;
use boundary::answers::{answer_of, ending_answer};
use boundary::description::description_left;
use boundary::digests::{running_of, state_bytes, state_left};
use boundary::kinds::kind_of;
use boundary::memory::{session_left, session_of, write_left};
use boundary::signers::signer_of;
use container::{blocks, reading, sessions};
use faults::Fault;
use save::calls::{find_file, list_names};
use signing::digests::{advance, finish, start};
use steps::Step;

// Opens an image and describes it.
#[unsafe(no_mangle)]
pub extern "C" fn teplovist_open(image: &[u8], numbers: &mut [u64; 80]) -> u64
    ensures { (result ≡ packed (outcome_says (opened image.now))) × (numbers.new ≡ description_left (opened image.now) numbers.old) }
{
    let answer = reading::open(image);
    *numbers = description_left(answer, *numbers);
    answer_of(answer)
}

// The same of an image that is signed under a key.
#[unsafe(no_mangle)]
pub extern "C" fn teplovist_open_signed(
    image: &[u8],
    key: &[u8; 16],
    signer: &[u64; 4],
    numbers: &mut [u64; 80],
) -> u64
    ensures { (result ≡ packed (outcome_says (opened_signed image.now key.now (signer_of signer.now)))) × (numbers.new ≡ description_left (opened_signed image.now key.now (signer_of signer.now)) numbers.old) }
{
    let answer = reading::open_signed(image, *key, signer_of(*signer));
    *numbers = description_left(answer, *numbers);
    answer_of(answer)
}

// Reads part of a partition's level 4, as the active table has it.
#[unsafe(no_mangle)]
pub extern "C" fn teplovist_read_committed(
    image: &[u8],
    partition: u64,
    place: u64,
    buffer: &mut [u8],
) -> u64
    ensures { (result ≡ packed (outcome_says (calls.read_committed image.now partition place buffer.old).outcome)) × (buffer.new ≡ (calls.read_committed image.now partition place buffer.old).buffer) }
{
    answer_of(reading::read_committed(image, partition, place, buffer))
}

// Reads part of a partition's level 4, as a begun session has it.
#[unsafe(no_mangle)]
pub extern "C" fn teplovist_read_staged(
    image: &[u8],
    session: &[u8; 513],
    partition: u64,
    place: u64,
    buffer: &mut [u8],
) -> u64
    ensures { (result ≡ packed (outcome_says (calls.read_staged image.now (session_of session.now) partition place buffer.old).outcome)) × (buffer.new ≡ (calls.read_staged image.now (session_of session.now) partition place buffer.old).buffer) }
{
    answer_of(reading::read_staged(image, session_of(*session), partition, place, buffer))
}

// Whether a block of a partition's level 4 is verified, as the active table has it.
#[unsafe(no_mangle)]
pub extern "C" fn teplovist_verified(image: &[u8], partition: u64, block: u64) -> u64
    ensures { result ≡ packed (verdict_says (calls.is_verified image.now partition block)) }
{
    answer_of(reading::verified(image, partition, block))
}

// How many blocks of a partition's level 4 are verified.
#[unsafe(no_mangle)]
pub extern "C" fn teplovist_count_verified(image: &[u8], partition: u64) -> u64
    ensures { result ≡ packed (count_says (calls.count_verified image.now partition)) }
{
    answer_of(reading::count_verified(image, partition))
}

// The fault list: the row gets the first faults, the answer is the number of all.
#[unsafe(no_mangle)]
pub extern "C" fn teplovist_faults(image: &[u8], row: &mut [Fault]) -> u64
    ensures { (result ≡ packed (count_says (count_faults image.now))) × (row.new ≡ row_after (faults image.now) row.old) }
{
    answer_of(reading::faults(image, row))
}

// Stores what a call leaves of its caller's session, and answers.
fn kept(step: Step, session: &mut [u8; 513]) -> u64
    ensures answer { result ≡ packed (ending_says step.outcome) }
    ensures bytes { session.new ≡ session_left step.outcome session.old step.session }
{
    *session = session_left(step, *session);
    ending_answer(step.outcome)
}

// Starts a session.
#[unsafe(no_mangle)]
pub extern "C" fn teplovist_begin(image: &mut [u8], session: &mut [u8; 513]) -> u64
    ensures { Called session_left result image.new session.old session.new (calls.begin image.old (session_of session.old)) }
{
    let begun = sessions::begin(image, session_of(*session));
    kept(begun, session)
}

// Writes bytes to a partition's staged level 4. Only a write that ends in 17 changes the session's bytes.
#[unsafe(no_mangle)]
pub extern "C" fn teplovist_write(
    image: &mut [u8],
    session: &mut [u8; 513],
    partition: u64,
    place: u64,
    bytes: &[u8],
) -> u64
    ensures { Called write_left result image.new session.old session.new (calls.write image.old (session_of session.old) partition place bytes.now) }
{
    let written = sessions::write(image, session_of(*session), partition, place, bytes);
    *session = write_left(written, *session);
    ending_answer(written.outcome)
}

// Makes what is staged the committed one.
#[unsafe(no_mangle)]
pub extern "C" fn teplovist_commit(image: &mut [u8], session: &mut [u8; 513]) -> u64
    ensures { Called session_left result image.new session.old session.new (calls.commit image.old (session_of session.old)) }
{
    let committed = sessions::commit(image, session_of(*session));
    kept(committed, session)
}

// The same with the signature of the new header, under a key.
#[unsafe(no_mangle)]
pub extern "C" fn teplovist_commit_signed(
    image: &mut [u8],
    session: &mut [u8; 513],
    key: &[u8; 16],
    signer: &[u64; 4],
) -> u64
    ensures { Called session_left result image.new session.old session.new (calls.commit_signed image.old (session_of session.old) key.now (signer_of signer.now)) }
{
    let committed = sessions::commit_signed(image, session_of(*session), *key, signer_of(*signer));
    kept(committed, session)
}

// One step back: restores the header before the last commit in this session.
#[unsafe(no_mangle)]
pub extern "C" fn teplovist_revert(image: &mut [u8], session: &mut [u8; 513]) -> u64
    ensures { Called session_left result image.new session.old session.new (calls.revert image.old (session_of session.old)) }
{
    let reverted = sessions::revert(image, session_of(*session));
    kept(reverted, session)
}

// The same with the signature of that header, under a key.
#[unsafe(no_mangle)]
pub extern "C" fn teplovist_revert_signed(
    image: &mut [u8],
    session: &mut [u8; 513],
    key: &[u8; 16],
    signer: &[u64; 4],
) -> u64
    ensures { Called session_left result image.new session.old session.new (calls.revert_signed image.old (session_of session.old) key.now (signer_of signer.now)) }
{
    let reverted = sessions::revert_signed(image, session_of(*session), *key, signer_of(*signer));
    kept(reverted, session)
}

// Ends a session without a look at the image.
#[unsafe(no_mangle)]
pub extern "C" fn teplovist_abandon(session: &mut [u8; 513]) -> u64
    ensures { (result ≡ packed (ending_says (calls.abandon (session_of session.old)).outcome)) × (session.new ≡ session_left (calls.abandon (session_of session.old)).outcome session.old (calls.abandon (session_of session.old)).session) }
{
    let abandoned = sessions::abandon(session_of(*session));
    kept(abandoned, session)
}

// Lists the folders and files of a save into the row.
#[unsafe(no_mangle)]
pub extern "C" fn teplovist_list_names(image: &[u8], row: &mut [u8]) -> u64
    ensures { (result ≡ packed (count_says (list_names image.now row.old).answer)) × (row.new ≡ (list_names image.now row.old).row) }
{
    answer_of(list_names(image, row))
}

// Finds a file of a save by its folder's number and its name.
#[unsafe(no_mangle)]
pub extern "C" fn teplovist_find_file(image: &[u8], folder: u64, name: &[u8; 16]) -> u64
    ensures { result ≡ packed (sought_says (find_file image.now folder name.now)) }
{
    answer_of(find_file(image, folder, name))
}

// The block that a signer signs of an image.
#[unsafe(no_mangle)]
pub extern "C" fn teplovist_signing_block(
    image: &[u8],
    signer: &[u64; 4],
    block: &mut [u8; 284],
) -> u64
    ensures { (result ≡ packed (count_says (built_as (signed image.now (signer_of signer.now))))) × (block.new ≡ block_left (signed image.now (signer_of signer.now)) block.old) }
{
    answer_of(blocks::signing_block(image, signer_of(*signer), block))
}

// Its SHA-256, which is what is signed.
#[unsafe(no_mangle)]
pub extern "C" fn teplovist_signing_digest(
    image: &[u8],
    signer: &[u64; 4],
    digest: &mut [u8; 32],
) -> u64
    ensures { (result ≡ packed (outcome_says (outcome_of (signed image.now (signer_of signer.now))))) × (digest.new ≡ digest_left (signed image.now (signer_of signer.now)) digest.old) }
{
    answer_of(blocks::signing_digest(image, signer_of(*signer), digest))
}

// Starts a running digest.
#[unsafe(no_mangle)]
pub extern "C" fn teplovist_digest_start(state: &mut [u8; 104])
    ensures { state_of (running_of state.new) ≡ fresh }
{
    *state = state_bytes(start());
}

// Feeds a piece to a running digest.
#[unsafe(no_mangle)]
pub extern "C" fn teplovist_digest_feed(state: &mut [u8; 104], piece: &[u8]) -> u64
    ensures { FedBytes result state.old piece.now state.new }
{
    let fed = advance(running_of(*state), piece);
    *state = state_left(fed, *state);
    answer_of(fed)
}

// The digest of what was fed.
#[unsafe(no_mangle)]
pub extern "C" fn teplovist_digest_finish(state: &[u8; 104], digest: &mut [u8; 32]) -> u64
    ensures { FinishedBytes result state.now digest.old digest.new }
{
    let finished = finish(running_of(*state));
    *digest = finished.unwrap_or(*digest);
    answer_of(finished)
}

// How long the image must be that is lent for a blank one.
#[unsafe(no_mangle)]
pub extern "C" fn teplovist_blank_length(blocks: u64) -> u64
    ensures { result ≡ blank_length blocks }
{
    making::blank_length(blocks)
}

// Makes a lent image a blank one.
#[unsafe(no_mangle)]
pub extern "C" fn teplovist_make_blank(image: &mut [u8], kind: u64, blocks: u64) -> u64
    ensures { (result ≡ packed (ending_says (made image.old (kind_of kind) blocks).outcome)) × (image.new ≡ (made image.old (kind_of kind) blocks).image) }
{
    ending_answer(making::make_blank(image, kind_of(kind), blocks))
}
