// The signature of an image (02, W5), and the opening that checks it.
#![tactic(auto)]

ghost use Rattle.std.specs.Prelude.{◌≡◌, ◌≤◌, length};
ghost use Rattle.number.specs.Ranges.{part};
ghost use Rattle.number.specs.Bytes.{same_bytes};
ghost use Rattle.layout.specs.Headers.{header_bytes};
ghost use Rattle.signatures.specs.Signatures.{signature_range, signature, comes_first, opened_signed};

use cmac::code;
use layout::headers::header_of;
use layout::opening::open;
use layout::refusals::number_of;
use layout::{Container, Refusal};
use number::Range;
use number::ranges::part_of;
use number::runs::same_bytes;
use signing::Signer;
use signing::answers::judge_signer;
use signing::blocks::block_digest;

// How many bytes a signature has.
pub const SIGNATURE: u64 = 16;

// The last of the refusals that come before those of a signed opening.
const LAST_BEFORE: u64 = 3;

// The signature of a header.
pub fn sign(key: [u8; 16], signer: Signer, header: &[u8; 256]) -> [u8; 16]
    ensures { result ≡ signature key signer header.now }
{
    let hash = block_digest(signer, header);
    code(key, &hash)
}

// The image's first 16 bytes are the signature of its header.
fn is_signed(image: &[u8], key: [u8; 16], signer: Signer) -> bool
    requires { 0x200 ≤ length image.now }
    ensures { result ≡ same_bytes (part image.now signature_range) (signature key signer (header_bytes image.now)) }
{
    let header = header_of(image);
    let expected = sign(key, signer, &header);
    let front = Range {
        offset: 0,
        size: SIGNATURE,
    };
    same_bytes(part_of(image, front), &expected)
}

// Opening's answer comes before 15 and 16.
fn comes_first(answer: Result<Container, Refusal>) -> bool
    ensures { result ≡ comes_first answer }
{
    match answer {
        Ok(_) => false,
        Err(refusal) => number_of(refusal) <= LAST_BEFORE,
    }
}

// Opens an image that is signed: 1, 2, 3, then 15, then 16, then 4 and on.
pub fn open_signed(image: &[u8], key: [u8; 16], signer: Signer) -> Result<Container, Refusal>
    ensures { result ≡ opened_signed image.now key signer }
{
    let answer = open(image);
    if comes_first(answer) {
        return answer;
    }
    judge_signer(image, signer)?;
    if !is_signed(image, key, signer) {
        return Err(Refusal::Signature);
    }
    answer
}
