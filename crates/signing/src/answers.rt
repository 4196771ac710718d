// Whether a signer has a block of an image: 1, 2, then 15, and no other refusal.
ghost use Rattle.std.specs.Prelude.{◌≡◌, List, ℕ};
ghost use Rattle.signing.specs.Calls.{signed_as, signed_header, signed, outcome_of};

use super::Signer;
use super::shapes::kind_of;
use layout::headers::header_of;
use layout::magic::opens_as;
use layout::{Kind, Refusal};
use limits::length_allowed;

// 15: the container's kind doesn't fit the signer's type.
fn judge_kind(kind: Kind, signer: Signer) -> Result<(), Refusal>
    ensures { (header : List ℕ) → result ≡ outcome_of (signed_as kind signer header) }
{
    if kind == kind_of(signer) {
        Ok(())
    } else {
        Err(Refusal::SignerKind)
    }
}

// 2, then 15, of a header's bytes.
pub fn judge_header(header: [u8; 256], signer: Signer) -> Result<(), Refusal>
    ensures { result ≡ outcome_of (signed_header header signer) }
{
    if opens_as(&header, Kind::Disa) {
        judge_kind(Kind::Disa, signer)
    } else if opens_as(&header, Kind::Diff) {
        judge_kind(Kind::Diff, signer)
    } else {
        Err(Refusal::Format)
    }
}

// 1, then those of an image's header.
pub fn judge_signer(image: &[u8], signer: Signer) -> Result<(), Refusal>
    ensures { result ≡ outcome_of (signed image.now signer) }
{
    if !length_allowed(image.len() as u64) {
        return Err(Refusal::Length);
    }
    judge_header(header_of(image), signer)
}
