// The blocks that a signing box signs. The image is only read, and a refusal changes no lent byte.
ghost use Rattle.std.specs.Prelude.{◌≡◌};
ghost use Rattle.layout.specs.Refusals.{Answers, outcome_says, count_says};
ghost use Rattle.signing.specs.Calls.{signed, outcome_of, built_as, block_left, digest_left};

use layout::Refusal;
use layout::headers::header_of;
use signing::Signer;
use signing::answers::judge_signer;
use signing::blocks::{block_digest, build};

// The block that a signer signs of an image, at the front of the lent bytes, with its length.
pub fn signing_block(image: &[u8], signer: Signer, block: &mut [u8; 284]) -> Result<u64, Refusal>
    ensures { (Answers count_says result (built_as (signed image.now signer))) × (block.new ≡ block_left (signed image.now signer) block.old) }
{
    judge_signer(image, signer)?;
    let header = header_of(image);
    let length = build(signer, &header, block);
    Ok(length as u64)
}

// Its SHA-256, which is what is signed.
pub fn signing_digest(image: &[u8], signer: Signer, out: &mut [u8; 32]) -> Result<(), Refusal>
    ensures { (Answers outcome_says result (outcome_of (signed image.now signer))) × (out.new ≡ digest_left (signed image.now signer) out.old) }
{
    judge_signer(image, signer)?;
    let header = header_of(image);
    let hash = block_digest(signer, &header);
    *out = hash;
    Ok(())
}
